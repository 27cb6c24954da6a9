//! What holds of every page of the desk: each text stands in text or in a value, and no address is
//! one. So whatever people write, it is never read as markup, and the markup tells no more than what
//! is named here: two pages of which that is the same have the same markup.
ghost use Rattle.std.specs.Prelude.{◌≡◌, ℕ, Bool, List, Option, is_some};
ghost use Rattle.settings_core.specs.declared.settings.Settings.{Settings};
ghost use Rattle.desk_model.specs.declared.answer.Dossier.{Dossier};
ghost use Rattle.desk_model.specs.declared.answer.Load.{Load};
ghost use Rattle.desk_model.specs.declared.refusal.Refusal.{Refusal};
ghost use Rattle.desk_model.specs.declared.rows.Entry.{Entry};
ghost use Rattle.desk_model.specs.declared.rows.RequestRow.{RequestRow};
ghost use Rattle.find_core.specs.declared.loads.QueueLoad.{QueueLoad};
ghost use Rattle.find_core.specs.declared.search.Findings.{Findings};
ghost use Rattle.find_form.specs.declared.form.FindForm.{FindForm};
ghost use Rattle.find_form.specs.declared.shown.FoundPage.{FoundPage};
ghost use Rattle.find_form.specs.declared.shown.Start.{Start};
ghost use Rattle.page_core.specs.Markup.{SameMarkup};
ghost use Rattle.desk_pages.specs.Ask.{usual_told};
ghost use Rattle.desk_pages.specs.Fault.{fault_page};
ghost use Rattle.desk_pages.specs.Filed.{filed_page};
ghost use Rattle.desk_pages.specs.Find.{find_fault_page, find_page, found_told};
ghost use Rattle.desk_pages.specs.History.{kinds_told, newer_entries};
ghost use Rattle.desk_pages.specs.Home.{home_page, home_told};
ghost use Rattle.desk_pages.specs.New.{new_page};
ghost use Rattle.desk_pages.specs.Overtaken.{overtaken_page};
ghost use Rattle.desk_pages.specs.RefusalPage.{
  is_found,
  refusal_page,
  replied_page,
  unsent_ask_page,
  unsent_change_page,
  unsent_comment_page,
  unsent_page,
  unsent_reply_page,
};
ghost use Rattle.desk_pages.specs.Refused.{is_denied};
ghost use Rattle.desk_pages.specs.Request.{request_page, request_told};
ghost use Rattle.desk_pages.specs.Search.{chosen_in};
ghost use Rattle.desk_pages.specs.SignIn.{kept_page, sign_in_page};
ghost use Rattle.desk_pages.specs.Unsent.{why_told};
ghost use Rattle.desk_pages.specs.declared.unsent.Unsent.{Unsent};
ghost use Rattle.desk_pages.specs.Workload.{late_told, workload_page};

/// The page of a search tells by its markup which parts are sought, where that is told; what was
/// ticked and chosen in its form, and which of the choices that narrow it are the present ones;
/// whether it is that of a queue, or of what is late; how many requests and requestors there are,
/// which of them are due and which late; whether it has all that was found, one, or none; and whether
/// there are pages before it and after it.
pub fn find_page_law()
    ensures found { (caller other : List ℕ) (moment later : ℕ) (query asked : List ℕ)
        (start begin : Start) (form typed : FindForm) (page another : FoundPage)
        → found_told moment start form page ≡ found_told later begin typed another
        → SameMarkup (find_page caller moment query start form page)
        (find_page other later asked begin typed another) }
    ensures fault { (caller other : List ℕ) (moment later : ℕ) (sentence words : List ℕ)
        (form typed : FindForm) → chosen_in form ≡ chosen_in typed
        → SameMarkup (find_fault_page caller moment sentence form)
        (find_fault_page other later words typed) }
{}

/// The page of who has how much to do tells by its markup how many owners there are, and of which
/// something is late.
pub fn workload_page_law()
    ensures { (caller other : List ℕ) (moment later : ℕ) (loads others : List Load)
        → late_told loads ≡ late_told others
        → SameMarkup (workload_page caller moment loads) (workload_page other later others) }
{}

/// The first page tells by its markup how many of its lists' requests and requestors there are, which
/// of them are due and which late, in which queues anything is late, and how many lifecycles and
/// levels there are.
pub fn home_page_law()
    ensures { (caller other : List ℕ) (moment later : ℕ) (own owned asked sought : Findings)
        (loads others : List QueueLoad) (free unowned : Findings)
        (lifecycles cycles levels more : List (List ℕ))
        → home_told moment own asked loads free lifecycles levels
        ≡ home_told later owned sought others unowned cycles more
        → SameMarkup (home_page caller moment own asked loads free lifecycles levels)
        (home_page other later owned sought others unowned cycles more) }
{}

/// The page on which one signs in tells by its markup whether a token was refused, whether it stands at
/// another place, and whether a form comes along; and no more of what was typed into that.
pub fn sign_in_page_law()
    ensures plain { (next other : List ℕ) (refused elsewhere : Bool)
        → SameMarkup (sign_in_page next refused elsewhere) (sign_in_page other refused elsewhere) }
    ensures kept { (next other subject line requestors persons : List ℕ) (seen last : ℕ)
        (text words status chosen : List ℕ) (refused : Bool)
        → SameMarkup (kept_page next subject requestors seen text status refused)
        (kept_page other line persons last words chosen refused) }
{}

/// The page of a request that its filer may not see has the same markup whoever filed it.
pub fn filed_page_law()
    ensures { (caller other : List ℕ) (moment later id n : ℕ)
        → SameMarkup (filed_page caller moment id) (filed_page other later n) }
{}

/// The page of a fault has the same markup whatever is wrong.
pub fn fault_page_law()
    ensures { (heading another sentence words code name : List ℕ)
        → SameMarkup (fault_page heading sentence code) (fault_page another words name) }
{}

/// The page for a new request tells by its markup how many statuses there are to choose from, and
/// which of them is the usual one.
pub fn new_page_law()
    ensures { (queue another caller other : List ℕ) (moment later : ℕ) (usual first : List ℕ)
        (statuses names : List (List ℕ)) → usual_told usual statuses ≡ usual_told first names
        → SameMarkup (new_page queue caller moment usual statuses)
        (new_page another other later first names) }
{}

/// The page of a refusal tells by its markup whether a right is lacking. So does the page that says that
/// of two commands one was done.
pub fn refusal_page_law()
    ensures plain { (why other : Refusal) (caller another : List ℕ) (moment later : ℕ)
        → is_denied why ≡ is_denied other
        → SameMarkup (refusal_page why caller moment) (refusal_page other another later) }
    ensures replied { (why other : Refusal) (caller another : List ℕ) (moment later id n : ℕ)
        (status chosen : List ℕ) → is_denied why ≡ is_denied other
        → SameMarkup (replied_page why caller moment id status)
        (replied_page other another later n chosen) }
{}

/// The page of a form that wasn't sent tells by its markup whether the desk refused it, and then
/// whether a right is lacking, and of a new request whether its queue is there; and no more of what was
/// typed than the form that it was typed into, and whether a status was chosen.
pub fn unsent_page_law()
    ensures plain { (why other : Unsent) (caller another : List ℕ) (moment later : ℕ)
        → why_told why ≡ why_told other
        → SameMarkup (unsent_page why caller moment) (unsent_page other another later) }
    ensures change { (why other : Unsent) (caller another : List ℕ) (moment later id n : ℕ)
        → why_told why ≡ why_told other
        → SameMarkup (unsent_change_page why caller moment id)
        (unsent_change_page other another later n) }
    ensures reply { (why other : Unsent) (caller another : List ℕ)
        (moment later id n seen last : ℕ) (text words : List ℕ) (status chosen : Option (List ℕ))
        → why_told why ≡ why_told other → is_some status ≡ is_some chosen
        → SameMarkup (unsent_reply_page why caller moment id seen text status)
        (unsent_reply_page other another later n last words chosen) }
    ensures comment { (why other : Unsent) (caller another : List ℕ) (moment later id n : ℕ)
        (text words : List ℕ) → why_told why ≡ why_told other
        → SameMarkup (unsent_comment_page why caller moment id text)
        (unsent_comment_page other another later n words) }
    ensures ask { (why other : Unsent) (caller another : List ℕ) (moment later : ℕ)
        (queue place subject line text words requestors persons : List ℕ)
        (status chosen : Option (List ℕ))
        → why_told why ≡ why_told other → is_found why ≡ is_found other
        → is_some status ≡ is_some chosen
        → SameMarkup (unsent_ask_page why caller moment queue subject text requestors status)
        (unsent_ask_page other another later place line words persons chosen) }
{}

/// The page of a reply that somebody overtook tells by its markup the kinds of the entries that came
/// meanwhile, in their order, and whether a status was chosen; and no more of them, nor of what was typed.
pub fn overtaken_page_law()
    ensures { (caller another : List ℕ) (moment later : ℕ) (entry other : Entry)
        (dossier file : Dossier) (seen last : ℕ) (text words : List ℕ)
        (status chosen : Option (List ℕ))
        → kinds_told (newer_entries seen dossier.entries)
        ≡ kinds_told (newer_entries last file.entries) → is_some status ≡ is_some chosen
        → SameMarkup (overtaken_page caller moment entry dossier seen text status)
        (overtaken_page another later other file last words chosen) }
{}

/// The page of a request tells by its markup whether the request is due, whether it is late, whether
/// local time stands beside its moments, whether the caller is a requestor of it and may change it,
/// reply and comment, how many persons
/// and other requests each of its lists has, and the kinds of its entries in their order. Of what may
/// change it the markup tells which moves there are and how many levels and suggested names, and
/// which level is the present one, but not who owns the request; and whether it can be closed with a
/// reply. Of the requests that it is linked with it tells nothing more.
pub fn request_page_law()
    ensures { (caller other : List ℕ) (moment later : ℕ) (settings rules : Settings)
        (dossier file : Dossier) (rows lines : List RequestRow)
        → request_told caller moment settings dossier ≡ request_told other later rules file
        → SameMarkup (request_page caller moment settings dossier rows)
        (request_page other later rules file lines) }
{}
