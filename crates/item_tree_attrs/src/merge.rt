//! Attributes of one owner that stand behind others.
ghost use Rattle.std.specs.Prelude.{◌≡◌, ◌↔◌, ◌+◌, ◌<◌, ◌++◌, length, Ok, IsSome, IfOk, IfErr, OnOk, OnErr, IsErrAnd};
ghost use Rattle.std.specs.Prelude.{IsErrOf};
ghost use Rattle.item_tree_attrs.specs.Collected.{attr_limit, collection_of, join, IsAssociative, IsTooManyTogether};
ghost use Rattle.item_tree_attrs.specs.declared.collect.AttrError.TheVariants.{TooMany};
ghost use Rattle.item_tree_attrs.specs.declared.collect.AttrsOrCfg.TheVariants.{Enabled as enabled};

use crate::collect::{AttrError, AttrsOrCfg, AttrsOwned};
use std::mem;
use thiserror::Error;

/// A merge that was refused, with both sides as they were. rust-analyzer's `merge` cannot fail.
#[derive(Debug, Drop, Error)]
#[error("{cause}")]
pub struct MergeRefused {
    pub left: AttrsOrCfg,
    pub right: AttrsOrCfg,
    pub cause: AttrError,
}

impl AttrsOrCfg {
    /// These attributes with those of `right` behind them, and the cfg of `right`, if it has one that is false.
    /// Where a cfg of this side is false, this side is the answer, and no memory is taken.
    /// rust-analyzer's `AttrsOrCfg::merge`.
    ///
    /// `TooMany` is the answer exactly where this side is enabled and the two have more than u32::MAX attributes
    /// together; any other refusal is `OutOfMemory`, of the allocator that this side keeps.
    pub fn merge(self, right: AttrsOrCfg) -> Result<AttrsOrCfg, MergeRefused>
        ensures value { let joined = join (collection_of self) (collection_of right) in
            IfOk result (λ both. collection_of both ≡ joined) }
        ensures disabled { IsSome (collection_of self).false_cfg → result ≡ Ok self }
        ensures too_many { IsErrAnd result (λ e. e.cause ≡ TooMany)
            ↔ IsTooManyTogether (collection_of self) (collection_of right) }
        ensures unchanged { IfErr result (λ e. (e.left ≡ self) × (e.right ≡ right)) }
        ensures associative { IsAssociative join }
    {
        match self {
            AttrsOrCfg::Enabled { attrs } => put_before(attrs, right),
            AttrsOrCfg::CfgDisabled(both) => Ok(AttrsOrCfg::CfgDisabled(both)),
        }
    }
}

// Enabled attributes with the right side behind them.
fn put_before(mut left: AttrsOwned, right: AttrsOrCfg) -> Result<AttrsOrCfg, MergeRefused>
    ensures value { IfOk result (λ both. collection_of both
        ≡ record { attrs = left ++ (collection_of right).attrs; false_cfg = (collection_of right).false_cfg }) }
    ensures too_many { IsErrAnd result (λ e. e.cause ≡ TooMany)
        ↔ (attr_limit < length left + length (collection_of right).attrs) }
    ensures unchanged { IfErr result (λ e. (e.left ≡ enabled left) × (e.right ≡ right)) }
{
    match right {
        AttrsOrCfg::Enabled { mut attrs } => match attrs.prepend(&mut left) {
            Ok(()) => Ok(AttrsOrCfg::Enabled { attrs }),
            Err(cause) => Err(MergeRefused {
                left: AttrsOrCfg::Enabled { attrs: left },
                right: AttrsOrCfg::Enabled { attrs },
                cause,
            }),
        },
        AttrsOrCfg::CfgDisabled(mut both) => match both.1.prepend(&mut left) {
            Ok(()) => Ok(AttrsOrCfg::CfgDisabled(both)),
            Err(cause) => Err(MergeRefused {
                left: AttrsOrCfg::Enabled { attrs: left },
                right: AttrsOrCfg::CfgDisabled(both),
                cause,
            }),
        },
    }
}

impl AttrsOwned {
    // Puts others before these.
    fn prepend(&mut self, others: &mut AttrsOwned) -> Result<(), AttrError>
        ensures ok { OnOk result (self.new ≡ others.old ++ self.old) }
        ensures too_many { IsErrOf result TooMany
            ↔ (attr_limit < length others.old + length self.old) }
        ensures err { OnErr result ((self.new ≡ self.old) × (others.new ≡ others.old)) }
    {
        if others.attrs.len() + self.attrs.len() > u32::MAX as usize {
            return Err(AttrError::TooMany);
        }
        others.attrs.append(&mut self.attrs)?;
        mem::swap(&mut others.attrs, &mut self.attrs);
        Ok(())
    }
}
