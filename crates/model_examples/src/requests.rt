//! Requests to a new desk, and those that are refused.
ghost use Rattle.model_examples.specs.{Accounts.NoncesAndAccountsHold, Contacts.ContactsAreTested, Moments.MomentsAreKept, Payloads.PayloadsAreRefused};
ghost use Rattle.model_examples.specs.Refused.{RequestsAreRefused};

/// The first nonce and account of a desk, and whose account a key finds (RFC 8555, 6.5, 7.2, 7.3).
pub fn nonces_and_accounts_hold()
    ensures { NoncesAndAccountsHold }
{}

/// Which test of a signed request answers first, and that its nonce is spent (RFC 8555, 6.2, 6.5).
pub fn requests_are_refused()
    ensures { RequestsAreRefused }
{}

/// Payloads that have not the form that their route reads (RFC 8555, 7.3, 7.4, 7.5).
pub fn payloads_are_refused()
    ensures { PayloadsAreRefused }
{}

/// Which contacts an account may have (RFC 8555, 7.3).
pub fn contacts_are_tested()
    ensures { ContactsAreTested }
{}

/// How long a nonce serves, at which moment a call acts, and which calls have a fault (RFC 8555, 6.5).
pub fn moments_are_kept()
    ensures { MomentsAreKept }
{}
