//! The payload of a request for another key (RFC 8555, 7.3.5).
ghost use Rattle.std.specs.Prelude.{◌≡◌, option_map, IfOk};
ghost use Rattle.serde_json.specs.View.{view};
ghost use Rattle.desk_model.specs.Payload.{key_change_in, key_text_in, object_member};

use crate::jwk::key_of;
use desk_model::{Jwk, KeyChange, Text};
use json_texts::text_of;
use serde_json::Value;
use std::alloc::{AllocError, Global};

// The key of a member that is an object, `None` where it is none.
fn key_member(alloc: Global, value: &Value, name: &str) -> Result<Option<Option<Jwk>>, AllocError>
    ensures { IfOk result (λ o. o ≡ option_map key_text_in (object_member name.now (view value.now))) }
{
    let Some(member) = value.get(name) else {
        return Ok(None);
    };
    if !member.is_object() {
        return Ok(None);
    }
    Ok(Some(key_of(alloc, member)?))
}

/// What the value of a keyChange payload asks, `None` where it has another form.
pub fn key_change_of(alloc: Global, value: &Value) -> Result<Option<KeyChange>, AllocError>
    ensures { IfOk result (λ o. o ≡ key_change_in (view value.now)) }
{
    let Some(account) = text_of(value, "account") else {
        return Ok(None);
    };
    let Some(new_key) = key_member(alloc, value, "newKey")? else {
        return Ok(None);
    };
    let Some(old_key) = key_member(alloc, value, "oldKey")? else {
        return Ok(None);
    };
    Ok(Some(KeyChange {
        account: Text::new(String::from_str(alloc, account)?),
        new_key,
        old_key,
    }))
}
