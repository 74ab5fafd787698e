//! Lists and objects of values.

/// Each of the items by what writes one.
#[macro_export]
macro_rules! each_value {
    ($alloc:expr, $item:ident in $items:expr, $written:expr) => {{
        let mut values = Vec::new($alloc);
        for $item in $items {
            values.push($written?)?;
        }
        Ok(values)
    }};
}

// The object of these members and more.
macro_rules! object {
    ($alloc:expr, $members:expr $(, $key:literal: $value:expr)+) => {{
        let members = $members;
        $(let members = with($alloc, members, $key, $value)?;)+
        Value::Object(members)
    }};
}

pub(crate) use object;
