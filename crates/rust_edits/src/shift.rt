//! How places move with an edit between braces.

ghost use Rattle.std.specs.Prelude.{◌≡◌, IfSome, is_some, map, option_map, true};
ghost use Rattle.std.specs.List.{list_all};
ghost use Rattle.rust_items.specs.LineEnds.{moved_range};
ghost use Rattle.rust_edits.specs.Edits.{shifted_place, shifted_item, shifted_problem, has_place, has_range};
ghost use Rattle.rust_edits.specs.Edits.{has_some_range, has_item, has_problem, or_kept};

use rust_items::{ItemPlace, Problem, TextRange};

/// How places move with an edit between braces: up to the `{` they stay, and behind the braces they are counted from
/// the `}`.
#[derive(Clone, Copy, Debug, PartialEq, Eq)]
pub struct Shift {
    /// The byte place of the `{`.
    pub opening: usize,
    /// That of the `}`.
    pub closing: usize,
    /// That of the `}` in the new text.
    pub closing_new: usize,
}

impl Shift {
    /// Where a place of the old text is in the new one. None stands between the braces, and none past what fits into
    /// memory.
    pub fn place(&self, at: usize) -> Option<usize>
        ensures value { IfSome result (λ to. to ≡ shifted_place self.now at) }
        ensures told { is_some result ≡ has_place self.now at }
    {
        if at <= self.opening {
            return Some(at);
        }
        at.checked_sub(self.closing)?.checked_add(self.closing_new)
    }

    fn range(&self, range: TextRange) -> Option<TextRange>
        ensures value { IfSome result (λ to. to ≡ moved_range (shifted_place self.now) range) }
        ensures told { is_some result ≡ has_range self.now range }
    {
        let start = self.place(range.start)?;
        let end = self.place(range.end)?;
        Some(TextRange { start, end })
    }

    fn some_range(&self, range: Option<TextRange>) -> Option<Option<TextRange>>
        ensures value { IfSome result
            (λ to. to ≡ option_map (moved_range (shifted_place self.now)) range) }
        ensures told { is_some result ≡ has_some_range self.now range }
    {
        match range {
            Some(range) => Some(Some(self.range(range)?)),
            None => Some(None),
        }
    }

    fn item(&self, item: ItemPlace) -> Option<ItemPlace>
        ensures value { IfSome result (λ to. to ≡ shifted_item self.now item) }
        ensures told { is_some result ≡ has_item self.now item }
    {
        Some(ItemPlace {
            id: item.id,
            range: self.range(item.range)?,
            name: self.some_range(item.name)?,
            body: self.some_range(item.body)?,
        })
    }

    fn move_place(&self, at: &mut usize)
        ensures { at.new ≡ or_kept (has_place self.now) (shifted_place self.now) at.old }
    {
        if let Some(moved) = self.place(*at) {
            *at = moved;
        }
    }

    fn move_item(&self, item: &mut ItemPlace)
        ensures { item.new ≡ or_kept (has_item self.now) (shifted_item self.now) item.old }
    {
        if let Some(moved) = self.item(*item) {
            *item = moved;
        }
    }

    fn move_problem(&self, problem: &mut Problem)
        ensures { problem.new
            ≡ or_kept (has_problem self.now) (shifted_problem self.now) problem.old }
    {
        if let Some(at) = self.place(problem.at) {
            problem.at = at;
        }
    }

    /// Moves the items of the old text to where they stand in the new one; the ids stay, and so does an item with a
    /// place that is not in the new text.
    pub fn move_items(&self, items: &mut [ItemPlace])
        ensures all { list_all (has_item self.now) items.old ≡ true
            → items.new ≡ map (shifted_item self.now) items.old }
        ensures each { items.new ≡ map (or_kept (has_item self.now) (shifted_item self.now)) items.old }
    {
        for item in items.iter_mut() {
            self.move_item(item);
        }
    }

    /// Moves the first bytes of the use trees of the old text to those in the new one; one that is not in the new text
    /// stays.
    pub fn move_use_trees(&self, starts: &mut [usize])
        ensures all { list_all (has_place self.now) starts.old ≡ true
            → starts.new ≡ map (shifted_place self.now) starts.old }
        ensures each { starts.new ≡ map (or_kept (has_place self.now) (shifted_place self.now)) starts.old }
    {
        for start in starts.iter_mut() {
            self.move_place(start);
        }
    }

    /// Moves the problems of the old text to where they stand in the new one, if the edit keeps them; one whose place
    /// is not in the new text stays.
    pub fn move_problems(&self, problems: &mut [Problem])
        ensures all { list_all (has_problem self.now) problems.old ≡ true
            → problems.new ≡ map (shifted_problem self.now) problems.old }
        ensures each { problems.new ≡ map (or_kept (has_problem self.now) (shifted_problem self.now)) problems.old }
    {
        for problem in problems.iter_mut() {
            self.move_problem(problem);
        }
    }
}
