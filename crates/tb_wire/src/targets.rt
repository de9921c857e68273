//! Where a request leads, by its method and its target.
ghost use Rattle.std.specs.Prelude.{◌≡◌, IsUtf8, drop};
ghost use Rattle.tb_wire.specs.Targets.{target_of, served, query_at, bill_of};

use crate::cutting::Target;
use crate::paths::{Route, Routes};
use tb_message::Query;
use tb_terms::Cusip;
use tb_units::Ident;

/// Where a request leads.
pub(crate) fn find_target(routes: &Routes, method: &[u8], target: &[u8]) -> Target
    requires text { IsUtf8 target.now }
    ensures { result ≡ target_of method.now target.now }
{
    if target.contains(&b'?') {
        return Target::NoRoute;
    }
    match routes.find(target) {
        Some(route) => serve(route, method, target),
        None => Target::NoRoute,
    }
}

fn serve(route: Route, method: &[u8], path: &[u8]) -> Target
    ensures { result ≡ served route method.now path.now }
{
    match route {
        Route::Messages if method == b"POST".as_slice() => Target::Messages,
        Route::Messages => Target::PostOnly,
        _ => match find_query(route, behind(path, route.front().len())) {
            Some(query) if method == b"GET".as_slice() => Target::Read(query),
            Some(_) => Target::GetOnly,
            None => Target::NoRoute,
        },
    }
}

fn find_query(route: Route, parameter: &[u8]) -> Option<Query>
    ensures { result ≡ query_at route parameter.now }
{
    match route {
        Route::Messages => None,
        Route::Holdings => Some(Query::Holdings),
        Route::Funds => Some(Query::Funds),
        Route::Terms => Ident::of_bytes(parameter).map(Query::Terms),
        Route::Results => Ident::of_bytes(parameter).map(Query::Results),
        Route::Awards => Ident::of_bytes(parameter).map(Query::Awards),
        Route::Bids => Ident::of_bytes(parameter).map(Query::Bids),
        Route::Redemption => find_bill(parameter).map(Query::Redemption),
    }
}

fn find_bill(bytes: &[u8]) -> Option<Cusip>
    ensures { result ≡ bill_of bytes.now }
{
    if bytes.len() != 9 {
        return None;
    }
    let mut bill = [0; 9];
    bill.copy_from_slice(bytes);
    Some(Cusip { bytes: bill })
}

fn behind(path: &[u8], at: usize) -> &[u8]
    ensures { result.now ≡ drop at path.now }
{
    if at < path.len() { &path[at..] } else { &[] }
}
