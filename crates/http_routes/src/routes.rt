//! The resources of the desk: their paths, the methods that they serve, and the router that finds them.
ghost use Rattle.std.specs.Prelude.{◌≡◌, [], ◌≢◌, ◌++◌, ◌↔◌, false, IfOk, OnOk, option_map, ℕ, List, Some, MatchOption, IsTrue, slice_index};
ghost use Rattle.http_routes.specs.Routes.{has_index, is_visible, is_visible_byte, methods_of, resource_of, serves, text_of, HasNumber, IsNumberText};
ghost use Rattle.http_routes.specs.Routes.{IsPathText, IsResourceAt, is_numbered};
ghost use Rattle.matchit.specs.Seek.{first};
ghost use Rattle.http_routes.specs.Router.{add_route, desk_routes, value_of};
ghost use Rattle.std.specs.Int.{IsInRange};

use desk_model::{Allow, LAST_NUMBER, Target};
use matchit::Router;
use std::alloc::{AllocError, Global};
use std::marker::Model;

/// A resource of the desk.
#[derive(Clone, Copy)]
pub enum Resource {
    /// The directory (RFC 8555, 7.1.1), by GET.
    Directory,
    /// Fresh nonces (RFC 8555, 7.2), by GET and HEAD.
    NewNonce,
    /// What signed requests are sent to.
    Signed(Target),
    /// What is served inside the house.
    Office(OfficeResource),
}

/// A resource for the validator, the signing office and the operator.
#[derive(Clone, Copy)]
pub enum OfficeResource {
    /// The key of the account of this number, by GET.
    Key(u64),
    /// The challenges that wait for the validator, by GET.
    ChallengeWork,
    /// The orders that wait for the signing office, by GET.
    OrderWork,
    /// What was found for the challenge of this number, a JSON object, by POST.
    Report(u64),
    /// The certificate of the order of this number, any bytes, by POST.
    Certify(u64),
    /// Why the order of this number is given up, a JSON object, by POST.
    FailOrder(u64),
    /// The end of the authorization of this number, by POST, whatever its body.
    RevokeAuthz(u64),
    /// The end of the account of this number, by POST, whatever its body.
    RevokeAccount(u64),
    /// The page of the desk, by GET, which no call answers.
    Page,
    /// A report that a text asks for, by POST, which no call answers.
    Look,
    /// The numbers by which the desk is watched, by GET, which no call answers.
    Metrics,
    /// A copy of the file of the desk and of its log, by GET, which no call answers.
    Backup,
}

/// A form of paths, whose number is left open where they have one.
#[derive(Clone, Copy)]
pub enum Route {
    /// The directory.
    Directory,
    /// Fresh nonces.
    NewNonce,
    /// New accounts.
    NewAccount,
    /// New keys of accounts.
    KeyChange,
    /// New orders.
    NewOrder,
    /// An account.
    Account,
    /// The orders of an account.
    Orders,
    /// An order.
    Order,
    /// The finalization of an order.
    Finalize,
    /// The certificate of an order.
    Cert,
    /// An authorization.
    Authz,
    /// A challenge.
    Chall,
    /// The key of an account.
    Key,
    /// The challenges that wait for the validator.
    ChallengeWork,
    /// The orders that wait for the signing office.
    OrderWork,
    /// What was found for a challenge.
    Report,
    /// The certificate for an order.
    Certify,
    /// Why an order is given up.
    FailOrder,
    /// The end of an authorization.
    RevokeAuthz,
    /// The end of an account.
    RevokeAccount,
    /// The page of the desk.
    Page,
    /// A report on the desk.
    Look,
    /// The numbers by which the desk is watched.
    Metrics,
    /// A copy of the desk.
    Backup,
}

// The text of a route's paths, with `{n}` in the place of their number.
fn text_of(route: Route) -> &'static str
    ensures { result.now ≡ text_of route }
{
    match route {
        Route::Directory => "/directory",
        Route::NewNonce => "/new-nonce",
        Route::NewAccount => "/new-account",
        Route::KeyChange => "/key-change",
        Route::NewOrder => "/new-order",
        Route::Account => "/account/{n}",
        Route::Orders => "/account/{n}/orders",
        Route::Order => "/order/{n}",
        Route::Finalize => "/order/{n}/finalize",
        Route::Cert => "/cert/{n}",
        Route::Authz => "/authz/{n}",
        Route::Chall => "/chall/{n}",
        Route::Key => "/office/key/{n}",
        Route::ChallengeWork => "/office/challenges",
        Route::OrderWork => "/office/orders",
        Route::Report => "/office/report/{n}",
        Route::Certify => "/office/certify/{n}",
        Route::FailOrder => "/office/fail/{n}",
        Route::RevokeAuthz => "/office/revoke-authz/{n}",
        Route::RevokeAccount => "/office/revoke-account/{n}",
        Route::Page => "/office/page",
        Route::Look => "/office/look",
        Route::Metrics => "/office/metrics",
        Route::Backup => "/office/backup",
    }
}

// The resource of a route, with its number where it has one.
fn resource_of(route: Route, number: u64) -> Resource
    ensures { result ≡ resource_of route number }
{
    match route {
        Route::Directory => Resource::Directory,
        Route::NewNonce => Resource::NewNonce,
        Route::NewAccount => Resource::Signed(Target::NewAccount),
        Route::KeyChange => Resource::Signed(Target::KeyChange),
        Route::NewOrder => Resource::Signed(Target::NewOrder),
        Route::Account => Resource::Signed(Target::Account(number)),
        Route::Orders => Resource::Signed(Target::Orders(number)),
        Route::Order => Resource::Signed(Target::Order(number)),
        Route::Finalize => Resource::Signed(Target::Finalize(number)),
        Route::Cert => Resource::Signed(Target::Cert(number)),
        Route::Authz => Resource::Signed(Target::Authz(number)),
        Route::Chall => Resource::Signed(Target::Chall(number)),
        Route::Key => Resource::Office(OfficeResource::Key(number)),
        Route::ChallengeWork => Resource::Office(OfficeResource::ChallengeWork),
        Route::OrderWork => Resource::Office(OfficeResource::OrderWork),
        Route::Report => Resource::Office(OfficeResource::Report(number)),
        Route::Certify => Resource::Office(OfficeResource::Certify(number)),
        Route::FailOrder => Resource::Office(OfficeResource::FailOrder(number)),
        Route::RevokeAuthz => Resource::Office(OfficeResource::RevokeAuthz(number)),
        Route::RevokeAccount => Resource::Office(OfficeResource::RevokeAccount(number)),
        Route::Page => Resource::Office(OfficeResource::Page),
        Route::Look => Resource::Office(OfficeResource::Look),
        Route::Metrics => Resource::Office(OfficeResource::Metrics),
        Route::Backup => Resource::Office(OfficeResource::Backup),
    }
}

/// The methods that a resource serves.
pub fn methods_of(resource: Resource) -> Allow
    ensures { result ≡ methods_of resource }
{
    match resource {
        Resource::Directory => Allow::Get,
        Resource::NewNonce => Allow::GetHead,
        Resource::Signed(_) => Allow::Post,
        Resource::Office(
            OfficeResource::Key(_)
            | OfficeResource::ChallengeWork
            | OfficeResource::OrderWork
            | OfficeResource::Page
            | OfficeResource::Metrics
            | OfficeResource::Backup,
        ) => Allow::Get,
        Resource::Office(_) => Allow::Post,
    }
}

/// Whether these methods hold this one.
pub(crate) fn serves(methods: Allow, method: &str) -> bool
    ensures { result ≡ serves methods method.now }
{
    match methods {
        Allow::No => false,
        Allow::Get => method == "GET",
        Allow::GetHead => method == "GET" || method == "HEAD",
        Allow::Post => method == "POST",
    }
}

/// Whether a reply at this path has the link to the directory.
pub fn has_index(path: &str) -> bool
    ensures { result ≡ has_index path.now }
{
    path != "/directory" && !path.starts_with("/office/")
}

/// Whether each byte is a visible character of ASCII.
pub fn is_visible(text: &str) -> bool
    ensures { result ≡ is_visible text.now }
{
    text.bytes().all(is_visible_byte)
}

// Whether the byte is a visible character of ASCII.
fn is_visible_byte(b: u8) -> bool
    ensures { result ≡ is_visible_byte b }
{
    b >= 33 && b <= 126
}

// ---- the router

// The routes of the desk.
const ROUTES: [Route; 24] = [
    Route::Directory,
    Route::NewNonce,
    Route::NewAccount,
    Route::KeyChange,
    Route::NewOrder,
    Route::Account,
    Route::Orders,
    Route::Order,
    Route::Finalize,
    Route::Cert,
    Route::Authz,
    Route::Chall,
    Route::Key,
    Route::ChallengeWork,
    Route::OrderWork,
    Route::Report,
    Route::Certify,
    Route::FailOrder,
    Route::RevokeAuthz,
    Route::RevokeAccount,
    Route::Page,
    Route::Look,
    Route::Metrics,
    Route::Backup,
];

/// The routes of the desk, which are put into a router where the first path is looked up. Contracts see whether that was done.
#[derive(Drop)]
pub struct Routes {
    router: Option<Router<Route>>,
}

impl Model for Routes {
    ghost use Rattle.std.specs.Prelude.{◌≡◌, Bool, IfSome, is_some};
    ghost use Rattle.http_routes.specs.Router.{desk_routes};

    ghost Value = { Bool };

    ghost view = { λ a. is_some a.router };

    ghost invariant = { λ a. IfSome a.router (λ rows. rows ≡ desk_routes) };
}

impl Routes {
    /// The routes, for which no memory is taken yet.
    pub fn new() -> Routes
        ensures { result ≡ false }
    {
        Routes { router: None }
    }
}

/// The route that the router finds for a path, whatever stands in the place of its number.
///
/// # Errors
///
/// Where there is no memory for the router, which is then made for the next path.
pub fn route_at(alloc: Global, routes: &mut Routes, path: &str) -> Result<Option<Route>, AllocError>
    ensures { IfOk result (λ o. o ≡ option_map value_of (first desk_routes path.now)) }
{
    if let Some(router) = &routes.router {
        return Ok(find(router, path));
    }
    let router = desk_router(alloc)?;
    let found = find(&router, path);
    routes.router = Some(router);
    Ok(found)
}

// The router of the desk.
fn desk_router(alloc: Global) -> Result<Router<Route>, AllocError>
    ensures { IfOk result (λ router. router ≡ desk_routes) }
{
    let mut router = Router::new(alloc);
    add_all(&mut router)?;
    Ok(router)
}

// The route that a router finds for a path.
fn find(router: &Router<Route>, path: &str) -> Option<Route>
    ensures { result ≡ option_map value_of (first router.now path.now) }
{
    match router.at(path) {
        Ok(found) => Some(*found.value),
        Err(_) => None,
    }
}

// Adds the routes of the desk to a router that has none.
#[tactic(auto, using(std::proofs::lemmas::List::at_drop_all, std::proofs::lemmas::List::at_drop_more))]
fn add_all(router: &mut Router<Route>) -> Result<(), AllocError>
    requires { router.old ≡ [] }
    ensures { OnOk result (router.new ≡ desk_routes) }
{
    for route in ROUTES {
        add(router, route)?;
    }
    Ok(())
}

// Adds a route.
#[tactic(auto, using(crate::proofs::Inserted::inserted))]
fn add(router: &mut Router<Route>, route: Route) -> Result<(), AllocError>
    ensures { OnOk result (router.new ≡ add_route router.old route) }
{
    let Ok(()) = router.insert(text_of(route), route) else {
        return Err(AllocError);
    };
    Ok(())
}

// ---- from a path to the resource that it leads to

/// The resource at this path, or `None` where there is none (RFC 8555, 7.1).
///
/// # Errors
///
/// Where there is no memory for the routes.
pub(crate) fn resource_at(
    alloc: Global,
    routes: &mut Routes,
    path: &str,
) -> Result<Option<Resource>, AllocError>
    ensures there { IfOk result (λ o. MatchOption o ((r : Resource) → ¬ (IsResourceAt path.now r)) (λ r. IsResourceAt path.now r)) }
    ensures one { IfOk result (λ o. (r : Resource) → IsResourceAt path.now r → o ≡ Some r) }
{
    let Some(route) = route_at(alloc, routes, path)? else {
        return Ok(None);
    };
    match number_at(path, route) {
        Some(number) => Ok(Some(resource_of(route, number))),
        None => Ok(None),
    }
}

// The number of a path of this route, 0 where its paths have none, or `None` where it is not of this route.
fn number_at(path: &str, route: Route) -> Option<u64>
    ensures { MatchOption result ((n : ℕ) → ¬ (IsPathText (is_numbered route) path.now route n)) (λ n. IsPathText (is_numbered route) path.now route n) }
{
    let text = text_of(route);
    match text.split_once("{n}") {
        Some((before, after)) => number_between(path, before, after),
        None if path == text => Some(0),
        None => None,
    }
}

/// The number of an object that a path has between these texts.
pub fn number_between(path: &str, before: &str, after: &str) -> Option<u64>
    ensures { MatchOption result ((n : ℕ) → ¬ (HasNumber path.now before.now n after.now)) (λ n. HasNumber path.now before.now n after.now) }
{
    let digits = between(path, before, after)?;
    number_in(digits)
}

// What a text has between these texts.
fn between<'t>(text: &'t str, before: &str, after: &str) -> Option<&'t str>
    ensures { MatchOption result
        ((middle : List ℕ) → text.now ≢ before.now ++ (middle ++ after.now))
        (λ middle. text.now ≡ before.now ++ (middle.now ++ after.now)) }
{
    text.strip_prefix(before)?.strip_suffix(after)
}

// The number of an object whose decimal text this is.
#[tactic(auto, using(crate::proofs::Numbers::number_begins, crate::proofs::Numbers::number_parses, crate::proofs::Numbers::parsed_is_number))]
fn number_in(text: &str) -> Option<u64>
    ensures { MatchOption result ((n : ℕ) → ¬ (IsNumberText text.now n)) (λ n. IsNumberText text.now n) }
{
    // A text that begins so has no sign and no zero in front.
    if !begins_a_number(text.as_bytes()) {
        return None;
    }
    let Ok(number) = text.parse::<u64>() else {
        return None;
    };
    if number <= LAST_NUMBER {
        Some(number)
    } else {
        None
    }
}

// Whether the first byte is a digit other than zero.
fn begins_a_number(text: &[u8]) -> bool
    ensures { IsTrue result ↔ IsInRange 49 57 (slice_index text.now 0) }
{
    matches!(text.first(), Some(b'1'..=b'9'))
}
