//! What holds of the mended text of every text. The functions do nothing.
ghost use Rattle.std.specs.Prelude.{ℕ, ◌≡◌, ◌≤◌, ◌++◌, Decides, List, [], ◌∷◌, true, IsUtf8, flat_map, length, map};
ghost use Rattle.std.specs.Prelude.{false, slice_index};
ghost use Rattle.std.specs.List.{AllByRecursion, list_all, list_any};
ghost use Rattle.rust_lexer.specs.Alone.{EndsAlone, Stop, stop};
ghost use Rattle.rust_lexer.specs.Bytes.{is_continuation};
ghost use Rattle.rust_lexer.specs.Inner.{begins_front, is_blank_byte};
ghost use Rattle.rust_lexer.specs.Tokens.{tokens, tokens_from};
ghost use Rattle.rust_mended.specs.Apart.{StandApart, begin_with_item, behind_further, edit_further, mark_further};
ghost use Rattle.rust_mended.specs.Marks.{last_end, marks};
ghost use Rattle.rust_mended.specs.Mended.{all_match, mended_marks, closers_reaching, source_by, all_written};
ghost use Rattle.rust_mended.specs.Texts.{mending_edit, edits, is_matched, mended_text, place_back, puts, tells};
ghost use Rattle.rust_mended.specs.Texts.{AreTurnedWhereTold, turned_text, without_bytes_at};
ghost use Rattle.rust_mended.specs.declared.mark.Mark.{Mark};
ghost use Rattle.rust_mended.specs.declared.mark.MarkKind.TheVariants as mark;

use crate::bracket::Bracket;
use crate::edit::{Edit, EditKind};

// Where all brackets match, the text stays, and places are what they are.
#[tactic(auto, using(crate::proofs::MatchedMarks::text_stays, crate::proofs::MatchedMarks::places_stay))]
fn matched_texts_stay()
    ensures text { (text : List ℕ) → is_matched text ≡ true → mended_text text ≡ text }
    ensures places { (text : List ℕ) (at : ℕ) → is_matched text ≡ true → place_back text at ≡ at }
{}

// Nothing is told exactly where all brackets match, and what is told is told of a bracket of the text: of one that
// nothing closes, of a closer that closes nothing, or of one that closes a bracket of another kind. So no byte but that
// of such a closer is replaced.
#[tactic(auto, using(crate::proofs::ToldBrackets::nothing_told, crate::proofs::ToldBrackets::told_at_marks, crate::proofs::ToldBrackets::turned_where_told))]
fn brackets_are_told()
    ensures nothing { (text : List ℕ) → Decides (is_matched text) (edits text ≡ []) }
    ensures marks { (text : List ℕ) → AllByRecursion (λ e. list_any (tells e) (marks text) ≡ true) (edits text) }
    ensures turned { (text : List ℕ) → AreTurnedWhereTold (edits text) }
{}

// All brackets of the mended marks match, whatever the text is.
#[tactic(auto, using(crate::proofs::Matching::mended_match))]
fn mended_brackets_match()
    ensures { (text : List ℕ) → all_match (mended_marks (last_end text) (marks text)) ≡ true }
{}

// Each mark is written, in its order: none is lost, and none is added but for the closers that are put.
#[tactic(auto, using(crate::proofs::Matching::written_sources))]
fn no_mark_is_lost()
    ensures { (text : List ℕ) → flat_map source_by (all_written (last_end text) (marks text)) ≡ marks text }
{}

// What stands behind marks that match is mended by itself.
#[tactic(auto, using(crate::proofs::MatchedMarks::edits_behind_matched))]
fn matched_marks_before_stay()
    ensures { (at : ℕ) (front behind : List Mark) → all_match front ≡ true
        → flat_map mending_edit (all_written at (front ++ behind)) ≡ flat_map mending_edit (all_written at behind) }
{}

// But for the closers that were put, the mended text is the text with single bytes replaced: closers that were left out
// or turned.
#[tactic(auto, using(crate::proofs::LosslessTexts::text_lossless, crate::proofs::LosslessTexts::text_length))]
fn no_byte_is_lost()
    ensures bytes { (text : List ℕ) → IsUtf8 text → without_bytes_at 0 (puts text) (mended_text text)
        ≡ turned_text text }
    ensures len { (text : List ℕ) → IsUtf8 text → length (turned_text text) ≡ length text }
{}

// Places lead back in their order, and into the text.
#[tactic(auto, using(crate::proofs::PlacesBack::places_rise, crate::proofs::PlacesBack::places_within))]
fn places_lead_back()
    ensures rising { (text : List ℕ) (m n : ℕ) → IsUtf8 text → m ≤ n → place_back text m ≤ place_back text n }
    ensures within { (text : List ℕ) (at : ℕ) → IsUtf8 text → at ≤ length (mended_text text)
        → place_back text at ≤ length text }
{}

// An item at the beginning of a line of column 0 is mended by itself, whatever stands before it, if no closer behind it
// is too much: what is open before it ends before it.
#[tactic(auto, using(crate::proofs::ItemsAtLineStarts::written_behind))]
fn items_behind_stay()
    ensures { (at : ℕ) (front : List Mark) (item : Mark) (behind : List Mark) → item.kind ≡ mark.Item
        → item.indent ≡ 0 → closers_reaching (item ∷ behind) ≡ []
        → all_written at (front ++ (item ∷ behind)) ≡ all_written item.behind front ++ all_written at (item ∷ behind) }
{}

// The marks of texts that stand apart are those of the first, and those of the second further on.
#[tactic(auto, using(crate::proofs::Seam::all_marks, crate::proofs::Seam::all_last))]
fn marks_stand_apart()
    ensures marks { (q z s : List ℕ) → StandApart q z s
        → marks (q ++ (z ++ 10 ∷ s)) ≡ marks q ++ map (mark_further q z) (marks s) }
    ensures last { (q z s : List ℕ) → StandApart q z s
        → last_end (q ++ (z ++ 10 ∷ s)) ≡ behind_further q z (last_end s) }
{}

// A text that ends with a `{`, a `}` or a `;` as a token stands apart from what is behind the end of its line, as far
// as no byte order mark, no `#`, no dash and no end of a line begins it.
#[tactic(auto, using(crate::proofs::AtStops::apart_plain))]
fn ended_texts_stand_apart()
    ensures { (b : ℕ) (w : List ℕ) (o : Stop) (z s : List ℕ) → begins_front b ≡ false → EndsAlone (b ∷ w) o
        → list_all is_blank_byte z ≡ true → tokens s ≡ tokens_from 0 0 s → is_continuation (slice_index s 0) ≡ false
        → StandApart (b ∷ (w ++ stop o ∷ [])) z s }
{}

// What stands apart behind a text whose brackets match is mended by itself.
#[tactic(auto, using(crate::proofs::Joins::matched_edits, crate::proofs::Joins::matched_text))]
fn texts_before_stay()
    ensures edits { (q z s : List ℕ) → StandApart q z s → is_matched q ≡ true
        → edits (q ++ (z ++ 10 ∷ s)) ≡ map (edit_further q z) (edits s) }
    ensures text { (q z s : List ℕ) → StandApart q z s → is_matched q ≡ true
        → mended_text (q ++ (z ++ 10 ∷ s)) ≡ q ++ (z ++ 10 ∷ mended_text s) }
{}

// A text that begins with an item of column 0, and in which no closer is too much, is mended by itself, whatever text
// it stands apart behind; and so is that.
#[tactic(auto, using(crate::proofs::Joins::item_edits, crate::proofs::Joins::item_text))]
fn texts_behind_stay()
    ensures edits { (q z s : List ℕ) → StandApart q z s → begin_with_item (marks s) ≡ true
        → closers_reaching (marks s) ≡ []
        → edits (q ++ (z ++ 10 ∷ s)) ≡ edits q ++ map (edit_further q z) (edits s) }
    ensures text { (q z s : List ℕ) → IsUtf8 q → StandApart q z s → begin_with_item (marks s) ≡ true
        → closers_reaching (marks s) ≡ [] → mended_text (q ++ (z ++ 10 ∷ s))
        ≡ mended_text q ++ (z ++ 10 ∷ mended_text s) }
{}

// `==` decides whether two values are one, and a copy is its source: the derives are held to it.
fn equal_edits()
    ensures brackets { (a b : Bracket) → Decides (⟦<Bracket as PartialEq>⟧.eq a b) (a ≡ b) }
    ensures kinds { (a b : EditKind) → Decides (⟦<EditKind as PartialEq>⟧.eq a b) (a ≡ b) }
    ensures edits { (a b : Edit) → Decides (⟦<Edit as PartialEq>⟧.eq a b) (a ≡ b) }
{}

fn copied_edits()
    ensures brackets { (source copy : Bracket) → ⟦<Bracket as Clone>⟧.is_clone source copy → copy ≡ source }
    ensures kinds { (source copy : EditKind) → ⟦<EditKind as Clone>⟧.is_clone source copy → copy ≡ source }
    ensures edits { (source copy : Edit) → ⟦<Edit as Clone>⟧.is_clone source copy → copy ≡ source }
{}
