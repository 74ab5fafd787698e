//! Lists, read item by item.

// Each of the values by what reads it; a fault is told of the list.
macro_rules! each_read {
    ($alloc:expr, $item:ident in $items:expr, $read:expr) => {{
        let mut done = Vec::with_capacity($alloc, $items.len())?;
        for $item in $items {
            let place = done.len();
            let read = $read.in_item($alloc, place)?;
            done.push(read)?;
        }
        Ok(done)
    }};
}

pub(crate) use each_read;
