//! Objects of JSON, made member by member: `json!` with many values is one long function, which is proved slowly.
//!
//! Each function fails only if memory runs out.

ghost use Rattle.std.specs.Prelude.{◌≡◌, IfOk};
ghost use Rattle.serde_json.specs.Data.{member, no_members, object, put as put_member, string};
ghost use Rattle.serde_json.specs.View.{members_view, view};

use crate::member::Members;
use serde_json::{Map, Value, put};
use std::alloc::{AllocError, Global};

/// These members and one more, which takes the place of one under the same key.
pub fn with(alloc: Global, members: Members, key: &str, value: Value) -> Result<Members, AllocError>
    ensures { let old = members_view members.entries in
        IfOk result (λ ms. members_view ms.entries ≡ put_member key.now (view value) old) }
{
    let mut members = members;
    put(&mut members, alloc, key, value)?;
    Ok(members)
}

/// These members and a text.
pub fn with_text(
    alloc: Global,
    members: Members,
    key: &str,
    text: &str,
) -> Result<Members, AllocError>
    ensures { let old = members_view members.entries in
        IfOk result (λ ms. members_view ms.entries ≡ put_member key.now (string text.now) old) }
{
    let text = Value::try_from_str(alloc, text)?;
    with(alloc, members, key, text)
}

/// An object with one member.
pub fn one(alloc: Global, key: &str, value: Value) -> Result<Value, AllocError>
    ensures { IfOk result (λ v. view v ≡ object (member key.now (view value) no_members)) }
{
    Ok(Value::Object(with(alloc, Map::new(alloc), key, value)?))
}

/// A text as the only member.
pub fn of_text(alloc: Global, key: &str, text: &str) -> Result<Members, AllocError>
    ensures { IfOk result (λ ms. members_view ms.entries
        ≡ member key.now (string text.now) no_members) }
{
    with_text(alloc, Map::new(alloc), key, text)
}
