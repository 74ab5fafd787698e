//! What holds of the types here. Each derive is held to it by a clause; the functions do nothing.

ghost use Rattle.hir_input.specs.Equality.{IsCopied};
ghost use Rattle.std.specs.Prelude.{◌≡◌, ◌≤◌, ℕ, IsUtf8, List, Some, false, length, slice_range};
ghost use Rattle.hir_input.specs.Attr.{MetaView, metas_from};
ghost use Rattle.hir_input.specs.Cfg.{AtomView};
ghost use Rattle.hir_input.specs.declared.ids.AstIdKind.TheVariants as kind;
ghost use Rattle.rust_metas.specs.Docs.{kept_metas};
ghost use Rattle.rust_metas.specs.declared.wanted.WantedMetas.TheVariants as wanted;
ghost use Rattle.rust_items.specs.declared.source_file.ItemPlace.{ItemPlace};
ghost use Rattle.rust_mended.specs.Texts.{mended_text, place_back};
ghost use Rattle.rust_paths.specs.declared.names.TextRange.{TextRange};
ghost use Rattle.source_rows.specs.Enabled.{any_disables};
ghost use Rattle.source_rows.specs.Listed.{MemberReading, header_of};
ghost use Rattle.source_rows.specs.Untouched.{HasOwnHeader, header_between, is_touched};

use crate::labels::KindTexts;
use crate::reading::Reading;
use crate::source::Source;

fn readings()
    ensures { IsCopied ⟦<Reading<'static> as Clone>⟧.is_clone }
{}

fn kinds()
    ensures { IsCopied ⟦<KindTexts as Clone>⟧.is_clone }
{}

fn sources()
    ensures { IsCopied ⟦<Source<'static> as Clone>⟧.is_clone }
{}

/// What a cfg disables is told by the metas that tell conditions.
#[tactic(auto, using(crate::proofs::Conditions::conditions_disable))]
fn conditions()
    ensures { (options : List AtomView) (ms : List MetaView)
        → any_disables options (metas_from (kept_metas wanted.Conditions ms))
        ≡ any_disables options (metas_from ms) }
{}

/// A part of a mended text in which no byte was put or replaced is text of the file, where its places lead back to.
#[tactic(auto, using(crate::proofs::UntouchedTexts::untouched_text))]
fn untouched_parts_stay()
    ensures { (text : List ℕ) (range : TextRange) → IsUtf8 text → is_touched text range ≡ false
        → range.start ≤ range.end → range.end ≤ length (mended_text text)
        → slice_range (mended_text text) range.start range.end
        ≡ slice_range text (place_back text range.start) (place_back text range.end) }
{}

/// A header in which no bracket was put or replaced is read from the file's own text, at the place that is told: no
/// closer that was put for what is around the item is in it.
#[tactic(auto, using(crate::proofs::UntouchedTexts::own_header))]
fn headers_are_text()
    ensures { (text : List ℕ) (x : MemberReading) (p q : ItemPlace) → IsUtf8 text → HasOwnHeader text x p q
        → header_of x kind.Impl (Some p) ≡ header_between x.edition text p.range p.body }
{}
