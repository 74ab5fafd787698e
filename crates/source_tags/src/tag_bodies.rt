//! Tags of items with what stands in them: their members, and the items in the bodies of functions.
ghost use Rattle.std.specs.Prelude.{◌≡◌, ◌++◌, ◌∷◌, [], All, IfOk, OnOk, flat_map, map, option_copied, option_map};
ghost use Rattle.std.specs.Prelude.{string_bytes};
ghost use Rattle.tree_walk.specs.Views.{row_view};
ghost use Rattle.source_rows.specs.Listed.{told_item};
ghost use Rattle.source_rows.specs.ListedViews.{listed_view, reading_view};
ghost use Rattle.source_tags.specs.Inner.{FitsBlock, FitsPlace, IsSameTagger, block_item_view, fn_block_view};
ghost use Rattle.source_tags.specs.Inner.{holder_view, tagged_file};
ghost use Rattle.source_tags.specs.Tags as spec;
ghost use Rattle.source_tags.specs.Views.{tag_choice_view};

use crate::block_items::{
    BlockItem, FnBlock, Holder, block_item, block_places, block_row, enter, inner_blocks, leave,
    module_names, moved_place, word_inside,
};
use crate::tags::{Tagger, scope_word};
use hir_input::{AstIdKind, CfgOptions, Name};
use rust_items::{ItemPlace, TextRange, cut_out};
use source_listing::scopes::{names_around, names_in};
use source_listing::{Choice, holder};
use source_rows::{ListedMember, Reading, told_item};
use std::alloc::{AllocError, Global};
use tree_walk::Row;

/// How many bodies and blocks may stand in one another.
pub(crate) const MOST_BLOCKS: usize = 128;

/// Which tags a file has: which items and members, and whether those in bodies.
#[derive(Clone, Copy)]
pub struct TagChoice<'a> {
    /// What members and bodies are read from.
    pub reading: Reading<'a>,
    pub choice: Choice,
    /// The cfgs that are set, if the items in the bodies of functions have some.
    pub bodies: Option<&'a CfgOptions>,
}

/// The same names, and one behind them.
fn names_behind<'r: 'a, 'a>(
    alloc: Global,
    scope: &[&'r Name],
    name: &'a Name,
) -> Result<Vec<&'a Name>, AllocError>
    ensures { IfOk result (λ v. map (λ n. n.now) v.items
        ≡ map (λ n. n.now) scope.now ++ name.entry.now ∷ []) }
{
    let mut names = names_in(alloc, scope)?;
    names.push(name)?;
    Ok(names)
}

/// In the text as it is, an item that stands there in the text that is read.
fn told_some(reading: Reading<'_>, place: Option<ItemPlace>) -> Option<ItemPlace>
    ensures { result ≡ option_map (told_item (reading_view reading.entry).closers) place }
{
    match place {
        Some(place) => Some(told_item(reading.mended, place)),
        None => None,
    }
}

impl Tagger<'_> {
    /// Adds the tags of what stands in a block, in which so many more may stand in one another.
    #[cycle(bodies)]
    fn push_block(
        &mut self,
        asked: TagChoice<'_>,
        left: usize,
        block: FnBlock<'_>,
        out: &mut String,
    ) -> Result<(), AllocError>
        requires { FitsBlock (fn_block_view block) }
        ensures text { let a = tag_choice_view asked.entry in
            let f = tagged_file self.old in
            let tags = spec.block_tags a.bodies left f a in
            let added = tags (fn_block_view block.entry) in
            OnOk result (string_bytes out.new ≡ string_bytes out.old ++ added) }
        ensures same { IsSameTagger self.old self.new }
    {
        let Some(options) = asked.bodies else {
            return Ok(());
        };
        if left == 0 {
            return Ok(());
        }
        let edition = asked.reading.edition;
        let places = block_places(self.alloc, block.text, edition)?;
        self.push_items(asked, left - 1, options, block, &places, out)?;
        let blocks = inner_blocks(self.alloc, block.text, edition, &places)?;
        self.push_blocks(asked, left - 1, block, &blocks, out)
    }

    /// Adds the tags of what stands in blocks of a block.
    #[cycle(bodies)]
    fn push_blocks(
        &mut self,
        asked: TagChoice<'_>,
        left: usize,
        block: FnBlock<'_>,
        ranges: &[TextRange],
        out: &mut String,
    ) -> Result<(), AllocError>
        requires { FitsBlock (fn_block_view block) }
        ensures text { let a = tag_choice_view asked.entry in
            let f = tagged_file self.old in
            let tags = spec.block_tags a.bodies left f a in
            let added = flat_map (spec.inner_tags tags (fn_block_view block.entry)) ranges.now in
            OnOk result (string_bytes out.new ≡ string_bytes out.old ++ added) }
        ensures same { IsSameTagger self.old self.new }
    {
        for range in ranges {
            self.push_inner(asked, left, block, *range, out)?;
        }
        Ok(())
    }

    /// Adds the tags of what stands in a block of a block.
    #[cycle(bodies)]
    fn push_inner(
        &mut self,
        asked: TagChoice<'_>,
        left: usize,
        block: FnBlock<'_>,
        range: TextRange,
        out: &mut String,
    ) -> Result<(), AllocError>
        requires { FitsBlock (fn_block_view block) }
        ensures text { let a = tag_choice_view asked.entry in
            let f = tagged_file self.old in
            let tags = spec.block_tags a.bodies left f a in
            let added = spec.inner_tags tags (fn_block_view block.entry) range in
            OnOk result (string_bytes out.new ≡ string_bytes out.old ++ added) }
        ensures same { IsSameTagger self.old self.new }
    {
        let Some(text) = cut_out(block.text, range) else {
            return Ok(());
        };
        let inner = FnBlock {
            base: block.base + range.start,
            text,
            ..block
        };
        self.push_block(asked, left, inner, out)
    }

    /// Adds the tags of the items of a block, which stand so in its text.
    #[cycle(bodies)]
    fn push_items(
        &mut self,
        asked: TagChoice<'_>,
        left: usize,
        options: &CfgOptions,
        block: FnBlock<'_>,
        places: &[ItemPlace],
        out: &mut String,
    ) -> Result<(), AllocError>
        requires { All (FitsPlace block.base) places.now }
        ensures text { let a = tag_choice_view asked.entry in
            let f = tagged_file self.old in
            let tags = spec.block_tags a.bodies left f a in
            let added = spec.block_items_tags tags f a options.now (fn_block_view block.entry) [] places.now in
            OnOk result (string_bytes out.new ≡ string_bytes out.old ++ added) }
        ensures same { IsSameTagger self.old self.new }
    {
        let (alloc, edition) = (self.alloc, asked.reading.edition);
        let mut holders = Vec::new(alloc);
        for place in places {
            leave(place.range.start, &mut holders);
            let item = block_item(alloc, block.text, edition, options, *place)?;
            self.push_item(asked, left, block, &holders, &item, *place, out)?;
            enter(*place, item, &mut holders)?;
        }
        Ok(())
    }

    /// Adds the tags of an item of a block and of what stands in it, if it is chosen.
    #[cycle(bodies)]
    fn push_item(
        &mut self,
        asked: TagChoice<'_>,
        left: usize,
        block: FnBlock<'_>,
        holders: &[Holder],
        item: &BlockItem,
        place: ItemPlace,
        out: &mut String,
    ) -> Result<(), AllocError>
        requires { FitsPlace block.base place }
        ensures text { let a = tag_choice_view asked.entry in
            let f = tagged_file self.old in
            let tags = spec.block_tags a.bodies left f a in
            let added = spec.block_item_tags tags f a (fn_block_view block.entry) (map holder_view holders.now)
            (block_item_view item.now) place in
            OnOk result (string_bytes out.new ≡ string_bytes out.old ++ added) }
        ensures same { IsSameTagger self.old self.new }
    {
        let row = block_row(self.alloc, block, holders, item, place)?;
        if !asked.choice.lists(&row) {
            return Ok(());
        }
        let modules = module_names(self.alloc, holders)?;
        let word = word_inside(block.word, &modules);
        let place = moved_place(place, block.base);
        self.push_placed(asked, left, word, &row, Some(place), out)
    }

    /// Adds the tag of an item that stands there in the text that is read, in what has this word, and those of what
    /// stands in it.
    #[cycle(bodies)]
    pub(crate) fn push_placed(
        &mut self,
        asked: TagChoice<'_>,
        left: usize,
        word: &str,
        row: &Row<'_>,
        place: Option<ItemPlace>,
        out: &mut String,
    ) -> Result<(), AllocError>
        ensures text { let a = tag_choice_view asked.entry in
            let f = tagged_file self.old in
            let tags = spec.block_tags a.bodies left f a in
            let added = spec.tags_at tags f a word.now (row_view row.now) place in
            OnOk result (string_bytes out.new ≡ string_bytes out.old ++ added) }
        ensures same { IsSameTagger self.old self.new }
    {
        self.push_item_tag(word, row, told_some(asked.reading, place), out)?;
        self.push_own(asked, left, word, row, place, out)?;
        let TagChoice {
            reading,
            choice,
            ..
        } = asked;
        let members = choice.members_at(self.alloc, reading, place, row.level, row.is_active)?;
        if members.is_empty() {
            return Ok(());
        }
        let type_name = reading.type_name_at(self.alloc, row.id.kind, place)?;
        let name = holder(row.name, &type_name);
        let word = scope_word(word, row.id.kind, name);
        let scope = names_around(self.alloc, row, name)?;
        self.push_member_tags(asked, left, word, &scope, &members, out)
    }

    /// Adds the tags of what stands in an item that stands there in the text that is read, except its members.
    #[cycle(bodies)]
    fn push_own(
        &mut self,
        asked: TagChoice<'_>,
        left: usize,
        word: &str,
        row: &Row<'_>,
        place: Option<ItemPlace>,
        out: &mut String,
    ) -> Result<(), AllocError>
        ensures text { let a = tag_choice_view asked.entry in
            let tags = spec.block_tags a.bodies left (tagged_file self.old) a in
            let added = spec.own_tags tags a word.now (row_view row.now) row.now.id.kind place in
            OnOk result (string_bytes out.new ≡ string_bytes out.old ++ added) }
        ensures same { IsSameTagger self.old self.new }
    {
        let (scope, is_active) = (row.scope.as_slice(), row.is_active);
        match (row.id.kind, place) {
            (AstIdKind::Fn, Some(place)) => {
                let (name, body) = (row.name, place.body);
                self.push_body(asked, left, "function", scope, name, is_active, body, out)
            }
            (AstIdKind::Const | AstIdKind::Static, Some(place)) => {
                self.push_value(asked, left, word, scope, is_active, place.range, out)
            }
            _ => Ok(()),
        }
    }

    /// Adds the tags of what stands in the braces of a value, which stands in these.
    #[cycle(bodies)]
    fn push_value(
        &mut self,
        asked: TagChoice<'_>,
        left: usize,
        word: &str,
        scope: &[&Name],
        is_active: bool,
        range: TextRange,
        out: &mut String,
    ) -> Result<(), AllocError>
        ensures text { let a = tag_choice_view asked.entry in
            let tags = spec.block_tags a.bodies left (tagged_file self.old) a in
            let names = map (λ n. n.now) scope.now in
            let block = spec.tagged_block a.reading word.now names is_active range in
            let added = spec.value_tags tags a a.bodies block in
            OnOk result (string_bytes out.new ≡ string_bytes out.old ++ added) }
        ensures same { IsSameTagger self.old self.new }
    {
        if asked.bodies.is_none() {
            return Ok(());
        }
        let scope = names_in(self.alloc, scope)?;
        let text = asked.reading.part(range);
        let block = FnBlock {
            word,
            scope: &scope,
            is_active,
            base: range.start,
            text,
        };
        let blocks = inner_blocks(self.alloc, text, asked.reading.edition, &[])?;
        self.push_blocks(asked, left, block, &blocks, out)
    }

    /// Adds the tags of members that stand in these, of which the innermost has this word.
    #[cycle(bodies)]
    fn push_member_tags(
        &mut self,
        asked: TagChoice<'_>,
        left: usize,
        word: &str,
        scope: &[&Name],
        members: &[ListedMember],
        out: &mut String,
    ) -> Result<(), AllocError>
        ensures text { let a = tag_choice_view asked.entry in
            let f = tagged_file self.old in
            let tags = spec.block_tags a.bodies left f a in
            let added = spec.tags_inside tags f a word.now (map (λ n. n.now) scope.now) (map listed_view members.now) in
            OnOk result (string_bytes out.new ≡ string_bytes out.old ++ added) }
        ensures same { IsSameTagger self.old self.new }
    {
        for member in members {
            self.push_member(asked, left, word, scope, member, out)?;
        }
        Ok(())
    }

    #[cycle(bodies)]
    fn push_member(
        &mut self,
        asked: TagChoice<'_>,
        left: usize,
        word: &str,
        scope: &[&Name],
        member: &ListedMember,
        out: &mut String,
    ) -> Result<(), AllocError>
        ensures text { let a = tag_choice_view asked.entry in
            let f = tagged_file self.old in
            let tags = spec.block_tags a.bodies left f a in
            let added = spec.member_tags tags f a word.now (map (λ n. n.now) scope.now) (listed_view member.now) in
            OnOk result (string_bytes out.new ≡ string_bytes out.old ++ added) }
        ensures same { IsSameTagger self.old self.new }
    {
        self.push_member_tag(word, scope, member, out)?;
        let name = Some(&member.name);
        self.push_body(
            asked,
            left,
            "method",
            scope,
            name,
            member.is_active,
            member.read_body,
            out,
        )
    }

    /// Adds the tags of what stands in the body of a function.
    #[cycle(bodies)]
    fn push_body(
        &mut self,
        asked: TagChoice<'_>,
        left: usize,
        word: &str,
        scope: &[&Name],
        name: Option<&Name>,
        is_active: bool,
        body: Option<TextRange>,
        out: &mut String,
    ) -> Result<(), AllocError>
        ensures text { let a = tag_choice_view asked.entry in
            let f = tagged_file self.old in
            let tags = spec.block_tags a.bodies left f a in
            let names = map (λ n. n.now) scope.now in
            let added = spec.body_tags tags a word.now names is_active (option_copied name.entry) body in
            OnOk result (string_bytes out.new ≡ string_bytes out.old ++ added) }
        ensures same { IsSameTagger self.old self.new }
    {
        let (Some(_), Some(name), Some(body)) = (asked.bodies, name, body) else {
            return Ok(());
        };
        let scope = names_behind(self.alloc, scope, name)?;
        let text = asked.reading.part(body);
        let block = FnBlock {
            word,
            scope: &scope,
            is_active,
            base: body.start,
            text,
        };
        self.push_block(asked, left, block, out)
    }
}
