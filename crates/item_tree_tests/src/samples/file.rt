//! A file with an item of each kind.
use crate::samples::written::syntax;
use hir_input::ast::Syntax;
use hir_input_json::Fault;
use std::alloc::{AllocError, Global};

/// Up to the hash of the last item.
const ITEMS: &str =
    r#"{"root":"source_file","attrs":[{"meta":"path","path":["plain","t"]}],"items":[
{"is":"module","hash":1,"name":"m","vis":"super","attrs":[{"meta":"path","path":["plain","a"]}],"items":[
{"is":"fn","hash":2,"name":"f","vis":{"in":["crate","type"]},"attrs":[
{"meta":"path","path":["plain","b"]},{"meta":"cfg","cfg":"x"}]},
{"is":"struct","hash":3,"name":"S","vis":"pub","fields":["crate","super",{"in":["plain","m"]}]},
{"is":"impl","hash":4}]},
{"is":"extern_block","hash":5,"items":[{"is":"macro_call","hash":6,"path":["plain","m"]}]},
{"is":"trait","hash":7,"name":"T","vis":"crate"},
{"is":"macro_rules","hash":8,"name":"m"},
{"is":"module","hash":9,"name":"n","semicolon":true},
{"is":"union","hash":10,"name":"U"},
{"is":"enum","hash":11,"name":"E"},
{"is":"type_alias","hash":12,"name":"A"},
{"is":"static","hash":13,"name":"X"},
{"is":"const","hash":14,"name":"C"},
{"is":"macro_def","hash":15,"name":"d"},
{"is":"extern_crate","hash":16,"name":"e","rename":"_"},
{"is":"use","hash":17,"tree":{"path":["plain","a"],"list":[{"star":true},{"path":["super",0],"rename":"b"},
{"list":[{"path":["plain","c"]},{"list":[{"path":["plain","d"],"star":true}]}]}]}},
{"is":"module","name":"o","vis":"self","semicolon":true,"hash":"#;

/// A file with an item of each kind:
///
/// ```text
/// #![t]
/// #[a]
/// pub(super) mod m {
///     #[b] #[cfg(x)]
///     pub(in crate::type) fn f() {}
///     pub struct S(pub(crate) A, pub(super) B, pub(in m) C);
///     impl S {}
/// }
/// extern { m!(); }
/// pub(crate) trait T {}
/// macro_rules! m {}
/// mod n;
/// union U {}
/// enum E {}
/// type A = ..;
/// static X: .. = ..;
/// const C: .. = ..;
/// macro d() {}
/// extern crate e as _;
/// use a::{*, self as b, {c, {d::*}}};
/// pub(self) mod o;
/// ```
///
/// The hash of an item is its place among all, each counted before those that stand in it, from 1 on. The last item has
/// this hash, in place of 18.
pub fn file(alloc: Global, last: u16) -> Result<Syntax, AllocError> {
    let mut text = String::from_str(alloc, ITEMS)?;
    write!(text, "{last}}}]}}")?;
    match syntax(alloc, text.as_str()) {
        Ok(syntax) => Ok(syntax),
        // (no page of this is that of a file with items)
        Err(Fault::WrongForm { .. }) => Ok(Syntax::Error),
        Err(Fault::OutOfMemory) => Err(AllocError),
    }
}
