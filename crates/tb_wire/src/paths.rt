//! The paths that are served.
ghost use Rattle.std.specs.Prelude.{◌≡◌, IfOk, IsUtf8};
ghost use Rattle.tb_wire.specs.Paths.{route_of};
ghost use Rattle.tb_wire.specs.Paths as spec;
ghost use Rattle.tb_wire.specs.Rows.{host_rows};

use matchit::{InsertError, Router};
use std::alloc::Global;
use tb_units::OutOfMemory;

/// What a path leads to: messages, or one kind of query.
#[derive(Clone, Copy, Debug)]
pub(crate) enum Route {
    Messages,
    Holdings,
    Funds,
    Terms,
    Results,
    Awards,
    Bids,
    Redemption,
}

impl Route {
    /// What stands in front of the path's parameter, or all of a path that has none.
    pub(crate) fn front(self) -> &'static str
        ensures { result.now ≡ spec.front_of self }
    {
        match self {
            Route::Messages => "/messages",
            Route::Holdings => "/holdings",
            Route::Funds => "/funds",
            Route::Terms => "/terms/",
            Route::Results => "/results/",
            Route::Awards => "/awards/",
            Route::Bids => "/bids/",
            Route::Redemption => "/redemption/",
        }
    }
}

/// The paths that are served, ready to be looked up.
#[derive(Drop)]
pub struct Routes {
    router: Router<Route>,
    ghost all: { router ≡ host_rows },
}

impl Routes {
    /// Makes them ready.
    pub fn new(alloc: Global) -> Result<Routes, OutOfMemory> {
        match router(alloc) {
            Ok(router) => Ok(Routes { router }),
            Err(_) => Err(OutOfMemory),
        }
    }

    /// What a path leads to, `None` exactly where it is not served.
    pub(crate) fn find(&self, path: &[u8]) -> Option<Route>
        requires text { IsUtf8 path.now }
        ensures { result ≡ route_of path.now }
    {
        match str::from_utf8(path) {
            Ok(path) => look_up(&self.router, path),
            Err(_) => None,
        }
    }
}

fn look_up(router: &Router<Route>, path: &str) -> Option<Route>
    requires rows { router.now ≡ host_rows }
    ensures { result ≡ route_of path.now }
{
    match router.at(path) {
        Ok(found) => Some(*found.value),
        Err(_) => None,
    }
}

fn router(alloc: Global) -> Result<Router<Route>, InsertError>
    ensures { IfOk result (λ rows. rows ≡ host_rows) }
{
    let mut router = Router::new(alloc);
    router.insert("/messages", Route::Messages)?;
    router.insert("/holdings", Route::Holdings)?;
    router.insert("/funds", Route::Funds)?;
    router.insert("/terms/{auction}", Route::Terms)?;
    router.insert("/results/{auction}", Route::Results)?;
    router.insert("/awards/{auction}", Route::Awards)?;
    router.insert("/bids/{auction}", Route::Bids)?;
    router.insert("/redemption/{cusip}", Route::Redemption)?;
    Ok(router)
}
