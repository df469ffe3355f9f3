//! Orders from their making to their end.
ghost use Rattle.model_examples.specs.{Endings.AccountsEnd, Large.CertificatesHaveLimits, Many.IdentifiersAreCounted, Offices.OfficesAreServed};
ghost use Rattle.model_examples.specs.Statuses.{StatusesAreDerived};
ghost use Rattle.model_examples.specs.Fifty.{FiftyIdentifiers, FiftyNames, FiftyFaultless, FiftyTaken, FiftyKept, FiftyWanted};
ghost use Rattle.model_examples.specs.Fifty.{FiftyOrdered, FiftyPieces, FiftyFollow};
ghost use Rattle.model_examples.specs.Orders.{FirstOrder, EnoughRandom, ShortRandomKeepsNonce, ShortRandomRecordsNothing};
ghost use Rattle.model_examples.specs.Orders.{FirstAuthorization, WildcardAuthorization, WildcardChallenge, FirstCalls};

/// The first order of a desk, with its authorizations and challenges (RFC 8555, 7.4).
pub fn first_order_holds()
    ensures first_order { FirstOrder }
    ensures enough_random { EnoughRandom }
    ensures short_random_keeps_nonce { ShortRandomKeepsNonce }
    ensures short_random_records_nothing { ShortRandomRecordsNothing }
    ensures first_authorization { FirstAuthorization }
    ensures wildcard_authorization { WildcardAuthorization }
    ensures wildcard_challenge { WildcardChallenge }
    ensures first_calls { FirstCalls }
{}

/// How many identifiers an order may have, and how some are refused (RFC 8555, 6.7.1, 7.4).
pub fn identifiers_are_counted()
    ensures { IdentifiersAreCounted }
{}

/// Each step of the decision on an order of fifty names (RFC 8555, 7.4).
pub fn fifty_names_are_ordered()
    ensures fifty_identifiers { FiftyIdentifiers }
    ensures fifty_names { FiftyNames }
    ensures fifty_faultless { FiftyFaultless }
    ensures fifty_taken { FiftyTaken }
    ensures fifty_kept { FiftyKept }
    ensures fifty_wanted { FiftyWanted }
    ensures fifty_ordered { FiftyOrdered }
    ensures fifty_pieces { FiftyPieces }
    ensures fifty_follow { FiftyFollow }
{}

/// Statuses over time: validation, expiry, deactivation, and what orders make of them (RFC 8555, 7.1.6).
pub fn statuses_are_derived()
    ensures { StatusesAreDerived }
{}

/// The end of an account and what it does to its orders and authorizations (RFC 8555, 7.1.6, 7.3.6).
pub fn accounts_end()
    ensures { AccountsEnd }
{}

/// What waits for the validator and the signing office, and what they hand in (RFC 8555, 7.4, 8).
pub fn offices_are_served()
    ensures { OfficesAreServed }
{}

/// Certificates and CSRs at the limit of their size (RFC 8555, 7.4, 7.4.2).
pub fn certificates_have_limits()
    ensures { CertificatesHaveLimits }
{}
