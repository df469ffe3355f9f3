//! A call with what its nonce and its payload say, which are read once for all that the call does.
ghost use Rattle.std.specs.Prelude.{◌≡◌, ◌↔◌, ◌<◌, ◌≤◌, option_map, option_and_then, Err, IfOk};
ghost use Rattle.desk_model.specs.Asked.{asked_names, target_names};
ghost use Rattle.desk_model.specs.{Limits.last_moment, Run.IsFormedCall, Tokens.nonce_in};
ghost use Rattle.identifiers.specs.AskedOrders.{target_order};
ghost use Rattle.identifiers.specs.{Parsed.ask_of, ReadOnce.spelled_nonce, ReadOnce.target_key_change};
ghost use Rattle.identifiers.specs.declared.parsed.CallFault.TheVariants.{Memory as memory, Moment as moment};
ghost use Rattle.serde_json.specs.Read.{read};
ghost use Rattle.serde_json.specs.View.{view};

use crate::payloads::{self, AskedOrder};
use desk_model::{
    Ask, Call, DnsName, KeyChange, LAST_MOMENT, OfficeAsk, Signed, Target, keep_form,
};
use json_texts::value_of;
use keys::read_nonce;
use serde_json::Value;
use std::alloc::{AllocError, Global};
use std::marker::Model;

/// A signed request with what its nonce and its payload say, which contracts see as the request.
#[derive(Drop)]
pub struct ParsedSigned<'a> {
    request: &'a Signed,
    nonce: Option<(u64, [u8; 16])>,
    value: Option<Value>,
    order: AskedOrder,
    key_change: Option<KeyChange>,
}

impl<'a> Model for ParsedSigned<'a> {
    ghost use Rattle.std.specs.Prelude.{◌≡◌, option_and_then};
    ghost use Rattle.desk_model.specs.{Tokens.nonce_in, declared.call.Signed.Signed};
    ghost use Rattle.identifiers.specs.AskedOrders.{IsValueOf, target_order};
    ghost use Rattle.identifiers.specs.ReadOnce.{spelled_nonce, target_key_change};

    ghost Value = { Signed };

    ghost view = { λ s. s.request.now };

    ghost invariant = { λ s. IsValueOf s.request.now.payload s.value
        × (spelled_nonce s.nonce ≡ option_and_then nonce_in s.request.now.nonce)
        × (s.order ≡ target_order s.request.now.target s.request.now.payload)
        × (s.key_change ≡ target_key_change s.request.now.target s.request.now.payload) };
}

// The serial and the random bytes that the text of a request's nonce spells, if it spells some.
fn nonce_of(request: &Signed) -> Option<(u64, [u8; 16])>
    ensures { spelled_nonce result ≡ option_and_then nonce_in request.now.nonce }
{
    match &request.nonce {
        Some(text) => read_nonce(text.as_str()),
        None => None,
    }
}

// What a request with this value in its payload asks for, if it is for a new order.
fn order_in(
    alloc: Global,
    request: &Signed,
    value: &Option<Value>,
) -> Result<AskedOrder, AllocError>
    requires { option_map (λ v. view v) value.now ≡ read request.now.payload }
    ensures { IfOk result (λ o. o ≡ target_order request.now.target request.now.payload) }
{
    match request.target {
        Target::NewOrder => payloads::asked_order(alloc, request.payload.as_str(), value),
        _ => Ok(AskedOrder::Malformed),
    }
}

// What a request with this value in its payload asks, if it is for another key.
fn key_change_in(
    alloc: Global,
    request: &Signed,
    value: &Option<Value>,
) -> Result<Option<KeyChange>, AllocError>
    requires { option_map (λ v. view v) value.now ≡ read request.now.payload }
    ensures { IfOk result (λ o. o ≡ target_key_change request.now.target request.now.payload) }
{
    match request.target {
        Target::KeyChange => payloads::asked_key_change(alloc, request.payload.as_str(), value),
        _ => Ok(None),
    }
}

impl<'a> ParsedSigned<'a> {
    // A request, whose nonce and payload are read: the identifiers of a new order, and the keys of a change of keys, too.
    fn read(alloc: Global, request: &'a Signed) -> Result<ParsedSigned<'a>, AllocError>
        ensures { IfOk result (λ s. s ≡ request.now) }
    {
        let value = value_of(alloc, request.payload.as_str())?;
        let order = order_in(alloc, request, &value)?;
        let key_change = key_change_in(alloc, request, &value)?;
        Ok(ParsedSigned {
            request,
            nonce: nonce_of(request),
            value,
            order,
            key_change,
        })
    }

    /// The request.
    pub fn request(&self) -> &'a Signed
        ensures { result.now ≡ self.now }
    {
        self.request
    }

    /// The serial and the random bytes of its nonce, `None` where it has none, or one of another form (RFC 8555, 6.5).
    pub fn nonce(&self) -> Option<(u64, [u8; 16])>
        ensures { spelled_nonce result ≡ option_and_then nonce_in self.now.nonce }
    {
        self.nonce
    }

    /// The JSON value of the payload, `None` where it is no JSON text.
    pub fn value(&self) -> &Option<Value>
        ensures { option_map (λ v. view v) result.now ≡ read self.now.payload }
    {
        &self.value
    }

    /// What it asks for, if it is for a new order; `Malformed` for any other.
    pub fn order(&self) -> &AskedOrder
        ensures { result.now ≡ target_order self.now.target self.now.payload }
    {
        &self.order
    }

    /// What it asks, if it is for another key and has the form of that (RFC 8555, 7.3.5); `None` for any other.
    pub fn key_change(&self) -> &Option<KeyChange>
        ensures { result.now ≡ target_key_change self.now.target self.now.payload }
    {
        &self.key_change
    }

    // The names that it asks for, if it is for a new order that may be made.
    fn names(&self) -> Option<&[DnsName]>
        ensures { option_map (λ v. v.now) result ≡ target_names self.now.target self.now.payload }
    {
        self.order().names()
    }
}

/// What a call asks, with what its payload says.
#[derive(Drop)]
pub enum ParsedAsk<'a> {
    /// A fresh nonce, by GET or HEAD (RFC 8555, 7.2).
    NewNonce { head: bool },
    /// A request of a client (RFC 8555, 6.2).
    Signed(ParsedSigned<'a>),
    /// The directory, or what an office asks.
    Office(&'a OfficeAsk),
}

impl<'a> ParsedAsk<'a> {
    // What is asked, read.
    fn read(alloc: Global, ask: &'a Ask) -> Result<ParsedAsk<'a>, AllocError>
        ensures { IfOk result (λ a. ask_of a ≡ ask.now) }
    {
        match ask {
            Ask::NewNonce { head } => Ok(ParsedAsk::NewNonce { head: *head }),
            Ask::Signed(request) => Ok(ParsedAsk::Signed(ParsedSigned::read(alloc, request)?)),
            Ask::Office(ask) => Ok(ParsedAsk::Office(ask)),
        }
    }

    // The names that it asks for, if it is a request for a new order that may be made.
    fn names(&self) -> Option<&[DnsName]>
        ensures { option_map (λ v. v.now) result ≡ asked_names (ask_of self.now) }
    {
        match self {
            ParsedAsk::Signed(request) => request.names(),
            _ => None,
        }
    }
}

/// Why a call is not read; whoever it is for stays as they were.
#[derive(Clone, Copy, Debug, PartialEq, Eq)]
pub enum CallFault {
    /// A growth was refused (fault 20).
    Memory,
    /// The call's moment is above the last one (fault 24).
    Moment,
}

impl From<AllocError> for CallFault {
    ghost from_gives = { λ _ e. e ≡ memory };

    fn from(_refused: AllocError) -> CallFault {
        CallFault::Memory
    }
}

/// A call that is not too late, with what its nonce and its payload say, which contracts see as the call.
#[derive(Drop)]
pub struct ParsedCall<'a> {
    call: &'a Call,
    ask: ParsedAsk<'a>,
}

impl<'a> Model for ParsedCall<'a> {
    ghost use Rattle.std.specs.Prelude.{◌≡◌, ◌≤◌};
    ghost use Rattle.desk_model.specs.{Limits.last_moment, Run.IsFormedCall, declared.call.Call.Call};
    ghost use Rattle.identifiers.specs.Parsed.{ask_of};

    ghost Value = { Call };

    ghost view = { λ c. c.call.now };

    ghost invariant = { λ c. (ask_of c.ask ≡ c.call.now.ask) × IsFormedCall c.call.now × (c.call.now.at ≤ last_moment) };
}

impl<'a> ParsedCall<'a> {
    /// A call, whose nonce and payload are read: the identifiers of a new order, and the keys of a change of keys, too.
    ///
    /// # Errors
    ///
    /// `Moment` is the fault 24 of the call, and `Memory` comes where a growth was refused.
    pub fn read(alloc: Global, call: &'a Call) -> Result<ParsedCall<'a>, CallFault>
        ensures formed { IsFormedCall call.now }
        ensures late { (result ≡ Err moment) ↔ (last_moment < call.now.at) }
        ensures read { IfOk result (λ c. c ≡ call.now) }
    {
        keep_form(call);
        if call.at > LAST_MOMENT {
            return Err(CallFault::Moment);
        }
        let ask = ParsedAsk::read(alloc, &call.ask)?;
        Ok(ParsedCall { call, ask })
    }

    /// The call.
    pub fn call(&self) -> &'a Call
        ensures call { result.now ≡ self.now }
        ensures formed { IsFormedCall self.now }
        ensures in_time { self.now.at ≤ last_moment }
    {
        self.call
    }

    /// What it asks.
    pub fn ask(&self) -> &ParsedAsk<'a>
        ensures { ask_of result.now ≡ self.now.ask }
    {
        &self.ask
    }

    /// The names that it asks for, if it asks for a new order that may be made.
    pub fn names(&self) -> Option<&[DnsName]>
        ensures { option_map (λ v. v.now) result ≡ asked_names self.now.ask }
    {
        self.ask.names()
    }
}
