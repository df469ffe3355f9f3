//! Calls of one account.
use desk_model::{Ask, Call, Jwk, Sequence, Signed, Target, Text};
use std::alloc::Global;
use std::process::Abort;
use std::test::Fail;

const KEY: &str = r#"{"crv":"P-256","kty":"EC","x":"AQ","y":"Ag"}"#;

/// A call at 0, with the random bytes of an order for one name.
///
/// # Errors
///
/// Where there is no memory for it.
pub fn call(alloc: Global, ask: Ask) -> Result<Call, Fail> {
    let mut random = Vec::new(alloc);
    random.extend_from_slice(&[0u8; 48])?;
    Ok(Call {
        at: 0,
        random: Sequence::new(random),
        ask,
    })
}

/// A request of the account.
///
/// # Errors
///
/// Where there is no memory for it.
pub fn request(
    rt: &impl Abort,
    alloc: Global,
    target: Target,
    nonce: Option<Text>,
    payload: String,
) -> Result<Call, Fail> {
    let key = Jwk::from_canonical(String::from_str(alloc, KEY)?);
    let signed = Signed {
        target,
        key: Ok(key.expect(rt, "a key")),
        nonce,
        payload: Text::new(payload),
    };
    call(alloc, Ask::Signed(signed))
}
