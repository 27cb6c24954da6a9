//! What holds of every step, whoever asks for what.

ghost use Rattle.std.specs.Prelude.{◌≡◌, ℕ, true, List, All};
ghost use Rattle.lifecycle_core.specs.declared.parts.Parts.{Parts};
ghost use Rattle.settings_core.specs.declared.settings.Settings.{Settings};
ghost use Rattle.text_core.specs.Texts.{is_among};
ghost use Rattle.desk_model.specs.Desk.{Desk, Request, empty_desk};
ghost use Rattle.desk_model.specs.IsDesk.{IsDesk};
ghost use Rattle.desk_model.specs.Names.{in_order, names_rise};
ghost use Rattle.desk_model.specs.declared.command.Command.{Command};
ghost use Rattle.desk_model.specs.declared.rows.Watcher.{Watcher};
ghost use Rattle.desk_core.specs.Carried.{CarriesStays};
ghost use Rattle.desk_core.specs.Decision.{IsOnItsRequest};
ghost use Rattle.desk_core.specs.Laws as laws;
ghost use Rattle.desk_core.specs.Laws.{AtEveryStep};
ghost use Rattle.desk_core.specs.Shown.{ShowsByList, ShowsByWatchers};
ghost use Rattle.desk_core.specs.Usual.{AsksUsualRight, PlainDueLaw};

/// It moves as the lifecycle allows, by who holds the right of the move, or by a reply that opens
/// the request again.
pub fn status_law()
    ensures { AtEveryStep laws.StatusLaw }
{}

/// A status moves to an inactive one only where all that the request depends on is inactive by the
/// lifecycles of their own queues.
pub fn dependency_law()
    ensures { AtEveryStep laws.DependsLaw }
{}

/// It changes by who takes what nobody owns, steals, untakes what he owns, or gives what he owns or
/// may reassign, to one who held `OwnTicket`.
pub fn owner_law()
    ensures { AtEveryStep laws.OwnerLaw }
{}

/// It changes by `SetLevel` alone, by who holds `ModifyTicket`.
pub fn level_law()
    ensures { AtEveryStep laws.LevelLaw }
{}

/// A role changes by `Watch` or `Unwatch` of one person in it, by who holds `ModifyTicket`, or
/// names himself and may watch in that role.
pub fn watch_law()
    ensures { AtEveryStep laws.PeopleLaw }
{}

/// A request that the command doesn't change is the same afterwards.
pub fn others_law()
    ensures { AtEveryStep laws.OthersLaw }
{}

/// Number, queue, subject and the moment of filing stay.
pub fn identity_law()
    ensures { AtEveryStep laws.IdentityLaw }
{}

/// Entries stay, and an accepted command adds one of its kind to the request that it changes, or
/// two where a reply opens that again, by the caller at the moment; and each tells what the command
/// did.
pub fn history_law()
    ensures { AtEveryStep laws.HistoryLaw }
{}

/// The last entry that tells a status tells the present one, where it did so before.
pub fn status_told_law()
    ensures empty { All laws.IsTold empty_desk.requests }
    ensures step { AtEveryStep laws.ToldLaw }
{}

/// It passes by an accepted reply alone, to the desk from a requestor and else to the requestor,
/// and then its limit counts anew, unless it was the desk's and stays so; both limits count anew
/// from a move out of the inactive statuses.
pub fn turn_law()
    ensures { AtEveryStep laws.TurnLaw }
{}

/// A request that wasn't there is filed by `Create`, by who holds `CreateTicket`: with the next
/// number, in a status that may be created, with the queue's level, owned by nobody, with the
/// desk's turn from the moment on, the requestors given or else the caller, and one entry.
pub fn filing_law()
    ensures { AtEveryStep laws.FilingLaw }
{}

/// One comes by `Link` and goes by `Unlink` of it, by who holds `ModifyTicket` where it leads from;
/// a new one leads between two requests that the caller may show.
pub fn links_law()
    ensures { AtEveryStep laws.LinksLaw }
{}

/// One comes by `OpenQueue` of who holds `AdminQueue`, and none goes or changes.
pub fn queues_law()
    ensures { AtEveryStep laws.QueuesLaw }
{}

/// The empty desk is well formed, and every command leaves a well-formed desk well formed.
pub fn desk_law()
    ensures empty { IsDesk empty_desk }
    ensures step { AtEveryStep laws.DeskLaw }
{}

/// A command keeps the limits: of queues, of requests, and of the entries of each request.
pub fn limits_law()
    ensures { AtEveryStep laws.LimitsLaw }
{}

/// Where sound settings know each name of a desk, they know each name of it after a command.
pub fn known_law()
    ensures { AtEveryStep laws.NamesLaw }
{}

/// A command that only reads leaves the desk as it was.
pub fn reading_law()
    ensures { AtEveryStep laws.ReadingLaw }
{}

/// Each due moment in an answer is that of its request, by the level that it has.
pub fn due_law()
    ensures { AtEveryStep laws.DueLaw }
{}

/// What is answered is in order.
pub fn orders_law()
    ensures { AtEveryStep laws.OrderLaw }
{}

/// A command that names a request which the caller may not show is refused as where no such request
/// is.
pub fn hidden_law()
    ensures { AtEveryStep laws.HiddenLaw }
{}

/// A reading is told of the caller's view of the desk alone; the requests and entries that it leaves
/// out the caller may not see, and all that it has is the desk's own, and he may see it.
pub fn view_law()
    ensures inside { AtEveryStep laws.InsideLaw }
    ensures outside { AtEveryStep laws.OutsideLaw }
    ensures small { AtEveryStep laws.ViewLaw }
{}

/// The plan of a command is on the request which the laws say that the command changes.
pub fn request_law()
    ensures { (asked : Command) → IsOnItsRequest asked }
{}

/// A move that no entry of the lifecycle names asks for `DeleteTicket` where it is to `deleted`,
/// and for `ModifyTicket` where it isn't.
pub fn usual_right_law()
    ensures { (lifecycle : Parts) (from : List ℕ) (to : List ℕ) → AsksUsualRight lifecycle from to }
{}

/// On a well-formed desk the change of a command that isn't refused carries the stays which the
/// request that it files or gives another row has afterwards. At most one of its entries begins a
/// stay, on that request.
pub fn carried_law()
    ensures { (settings : Settings) (at : ℕ) (caller : List ℕ) (asked : Command) (desk : Desk)
        → CarriesStays settings at caller asked desk }
{}

/// Where no level ignores a status, a request is due as if every minute counted.
pub fn plain_due_law()
    ensures { (settings : Settings) (desk : Desk) → PlainDueLaw settings desk }
{}

/// A list of watchers in which a person stands in the roles that the person has on a request tells
/// whether the person may show it. So do the rows of the request's own people.
pub fn roles_law()
    ensures by_list { (settings : Settings) (person : List ℕ) (request : Request)
        (watchers : List Watcher) → ShowsByList settings person request watchers }
    ensures own { (settings : Settings) (person : List ℕ) (request : Request)
        → ShowsByWatchers settings person request }
{}

/// Names in order rise by their bytes, and they are the same names.
pub fn names_law()
    ensures rises { (names : List (List ℕ)) → names_rise (in_order names) ≡ true }
    ensures same { (names : List (List ℕ)) (name : List ℕ)
        → is_among (in_order names) name ≡ is_among names name }
{}
