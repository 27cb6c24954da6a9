//! A desk over tables that answers messages, and whether it is served on.
ghost use Rattle.std.specs.Prelude.{◌≡◌, [], false, true};
ghost use Rattle.guess_core.specs.Guesses.{table};
ghost use Rattle.service_core.specs.Seen.{tables_of};
ghost use Rattle.web_core.specs.Shut.{IsShut};

use guess_core::Guesses;
use service_core::Desk;
use std::alloc::Global;
use store_core::Backend;
use wire_core::Routes;

/// A desk over tables, and what its server has of the system; whether it was seen that its store is
/// shut, and whether somebody who may has asked the server to stop. A fault of the disk shuts a
/// store for good, and then no command is done any more. Behind a proxy the log notes the address
/// that the proxy tells, and an address from which ten wrong tokens came in a minute is barred. Where
/// browsers come by HTTPS the pages have a cookie for that alone.
#[derive(Drop)]
pub struct WebDesk<S: Backend, C> {
    pub(crate) desk: Desk<S>,
    pub(crate) routes: Option<Routes>,
    pub(crate) system: C,
    pub(crate) is_shut: bool,
    pub(crate) stops: bool,
    pub(crate) proxied: bool,
    pub(crate) https: bool,
    pub(crate) guesses: Guesses,
    ghost seen: { is_shut ≡ true → IsShut (tables_of S.Store desk) },
}

impl<S: Backend, C> WebDesk<S, C> {
    /// The desk, whose store counts as open, which nobody has asked to stop and for which no token was
    /// wrong yet, and the router of its paths. Where there is no memory for that one the paths are gone over without it.
    pub fn new(alloc: Global, desk: Desk<S>, system: C, proxied: bool, https: bool) -> WebDesk<S, C>
        ensures desk { result.desk ≡ desk }
        ensures open { result.is_shut ≡ false }
        ensures goes { result.stops ≡ false }
        ensures proxied { result.proxied ≡ proxied }
        ensures https { result.https ≡ https }
        ensures guesses { result.guesses ≡ table 0 [] }
    {
        WebDesk {
            desk,
            routes: Routes::new(alloc).ok(),
            system,
            is_shut: false,
            stops: false,
            proxied,
            https,
            guesses: Guesses::new(alloc),
        }
    }

    /// Whether it was seen that the store is shut.
    pub fn is_shut(&self) -> bool
        ensures { result ≡ self.now.is_shut }
    {
        self.is_shut
    }
}

impl<S: Backend, C: Drop> WebDesk<S, C> {
    /// The desk. Takes no memory.
    pub fn into_desk(self) -> Desk<S>
        ensures { result ≡ self.desk }
    {
        self.desk
    }
}
