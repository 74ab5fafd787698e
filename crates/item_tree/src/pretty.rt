//! The page of a tree, which shows its items as text.
ghost use Rattle.std.specs.Prelude.{◌≡◌, ◌+◌, ◌<◌, ◌^◌, ◌∷◌, ◌++◌, [], IfOk, OnOk, codes, string_bytes, sum_by};
ghost use Rattle.item_tree.specs.Line.{text};
ghost use Rattle.item_tree.specs.Page.{shown_visibility, id_text, call_id_text, named_header, constant_header};
ghost use Rattle.item_tree.specs.Page.{use_header, extern_crate_header, macro_call_header, macro_rules_header, page};
ghost use Rattle.item_tree.specs.Inner.PageByIds.{Gains, Starts, blank_between, item_lines, own_lines_at, lines_at};
ghost use Rattle.item_tree.specs.Inner.PageByIds.{list_lines};
ghost use Rattle.item_tree.specs.Shown.{IsContained, IsModule};
ghost use Rattle.item_tree.specs.Walk.{AreContained, count_at};

mod attrs;

use crate::items::{
    Const, ExternCrate, MacroCall, MacroRules, Mod, ModItemId, ModItemKind, ModKind, Use,
};
use crate::line::{push_blank, push_indent, push_line};
use crate::tree::ItemTree;
use crate::visibility::RawVisibility;
use hir_input::{Edition, FileAstId, InEdition, Name};
use std::alloc::{AllocError, Global};

impl RawVisibility {
    // The visibility as it is written in an edition, with a space at its end.
    fn display<'a>(&'a self, edition: &'a Edition) -> InEdition<'a, RawVisibility>
        ensures { result ≡ shown_visibility edition.now.reserved.items self.now }
    {
        InEdition::new(self, edition)
    }
}

/// How the lines of an item are written: in which edition, and at which level. Texts are made in `alloc`.
#[derive(Clone, Copy)]
struct Printer<'a> {
    alloc: Global,
    edition: &'a Edition,
    level: usize,
}

impl Printer<'_> {
    #[tactic(auto, unfolding(crate::specs::Page::id_text))]
    fn push_id(self, out: &mut String, ast_id: FileAstId) -> Result<(), AllocError>
        ensures { OnOk result (Gains out.old out.new
            (text self.entry.level (id_text ast_id) ∷ [])) }
    {
        push_indent(out, self.level)?;
        writeln!(out, "// AstId: {ast_id}")
    }

    // The line of an id, and the indent of the header behind it.
    fn start_header(self, out: &mut String, ast_id: FileAstId) -> Result<(), AllocError>
        ensures { OnOk result (Starts out.old out.new self.entry.level ast_id) }
    {
        self.push_id(out, ast_id)?;
        push_indent(out, self.level)
    }

    // The line of an id that tells the context of a macro call, and what it expands to.
    fn push_call_id(
        self,
        out: &mut String,
        ast_id: FileAstId,
        item: &MacroCall,
    ) -> Result<(), AllocError>
        ensures { OnOk result (Gains out.old out.new
            (text self.entry.level (call_id_text ast_id item.now.ctxt item.now.expand_to) ∷ [])) }
    {
        let (ctxt, expand_to) = (item.ctxt, item.expand_to);
        push_indent(out, self.level)?;
        writeln!(
            out,
            "// AstId: {ast_id}, SyntaxContextId: {ctxt}, ExpandTo: {expand_to}"
        )
    }

    // An item that is written as its visibility, a word, its name, and what stands behind it.
    fn push_named(
        self,
        out: &mut String,
        ast_id: FileAstId,
        visibility: &RawVisibility,
        word: &str,
        name: &Name,
        end: &str,
    ) -> Result<(), AllocError>
        ensures { let reserved = self.entry.edition.now.reserved.items in
            let header = named_header reserved word.now end.now name.now visibility.now in
            OnOk result (Gains out.old out.new (item_lines self.entry.level ast_id header)) }
    {
        let visibility = visibility.display(self.edition);
        let name = name.display(self.edition);
        self.start_header(out, ast_id)?;
        writeln!(out, "{visibility}{word} {name}{end}")
    }
}

impl Printer<'_> {
    fn push_const(
        self,
        out: &mut String,
        ast_id: FileAstId,
        item: &Const,
        visibility: &RawVisibility,
    ) -> Result<(), AllocError>
        ensures { let reserved = self.entry.edition.now.reserved.items in
            let header = constant_header reserved item.now.name visibility.now in
            OnOk result (Gains out.old out.new (item_lines self.entry.level ast_id header)) }
    {
        let visibility = visibility.display(self.edition);
        self.start_header(out, ast_id)?;
        match &item.name {
            Some(name) => {
                let name = name.display(self.edition);
                writeln!(out, "{visibility}const {name} = _;")
            }
            None => writeln!(out, "{visibility}const _ = _;"),
        }
    }

    fn push_use(
        self,
        out: &mut String,
        ast_id: FileAstId,
        item: &Use,
        visibility: &RawVisibility,
    ) -> Result<(), AllocError>
        ensures { let reserved = self.entry.edition.now.reserved.items in
            let header = use_header reserved visibility.now item.now.tree in
            OnOk result (Gains out.old out.new (item_lines self.entry.level ast_id header)) }
    {
        let visibility = visibility.display(self.edition);
        let tree = item.use_tree().display(self.edition);
        self.start_header(out, ast_id)?;
        writeln!(out, "{visibility}use {tree};")
    }

    fn push_extern_crate(
        self,
        out: &mut String,
        ast_id: FileAstId,
        item: &ExternCrate,
        visibility: &RawVisibility,
    ) -> Result<(), AllocError>
        ensures { let reserved = self.entry.edition.now.reserved.items in
            let header = extern_crate_header reserved item.now.name visibility.now item.now.alias in
            OnOk result (Gains out.old out.new (item_lines self.entry.level ast_id header)) }
    {
        let visibility = visibility.display(self.edition);
        let name = item.name.display(self.edition);
        self.start_header(out, ast_id)?;
        match &item.alias {
            Some(alias) => {
                let alias = alias.display(self.edition);
                writeln!(out, "{visibility}extern crate {name} as {alias};")
            }
            None => writeln!(out, "{visibility}extern crate {name};"),
        }
    }

    #[tactic(auto, unfolding(crate::specs::Page::macro_call_header))]
    fn push_macro_call(
        self,
        out: &mut String,
        ast_id: FileAstId,
        item: &MacroCall,
    ) -> Result<(), AllocError>
        ensures { let reserved = self.entry.edition.now.reserved.items in
            let header = macro_call_header reserved item.now.path in
            OnOk result (Gains out.old out.new (text self.entry.level
            (call_id_text ast_id item.now.ctxt item.now.expand_to) ∷ text self.entry.level header ∷ [])) }
    {
        let path = item.path.display(self.edition);
        self.push_call_id(out, ast_id, item)?;
        push_indent(out, self.level)?;
        writeln!(out, "{path}!(...);")
    }

    fn push_macro_rules(
        self,
        out: &mut String,
        ast_id: FileAstId,
        item: &MacroRules,
    ) -> Result<(), AllocError>
        ensures { let reserved = self.entry.edition.now.reserved.items in
            let header = macro_rules_header reserved item.now.name in
            OnOk result (Gains out.old out.new (item_lines self.entry.level ast_id header)) }
    {
        let name = item.name.display(self.edition);
        self.start_header(out, ast_id)?;
        writeln!(out, "macro_rules! {name} {{ ... }}")
    }

    // An item whose header is a fixed line.
    fn push_fixed(self, out: &mut String, ast_id: FileAstId, header: &str) -> Result<(), AllocError>
        ensures { OnOk result (Gains out.old out.new
            (item_lines self.entry.level ast_id header.now)) }
    {
        self.push_id(out, ast_id)?;
        push_line(out, self.level, header)
    }
}

// A blank between the top attributes and the items, or alone where there is neither.
fn push_gap(out: &mut String, has_attrs: bool, has_items: bool) -> Result<(), AllocError>
    ensures { OnOk result (Gains out.old out.new (blank_between has_attrs has_items)) }
{
    if has_attrs == has_items {
        push_blank(out)
    } else {
        Ok(())
    }
}

impl ItemTree {
    #[cycle(page)]
    fn push_item(&self, out: &mut String, printer: Printer, id: ModItemId) -> Result<(), AllocError>
        requires contained { IsContained self.now id }
        requires level_fits { printer.level + count_at self.now id < 2 ^ 64 }
        ensures { let reserved = printer.entry.edition.now.reserved.items in
            OnOk result (Gains out.old out.new (lines_at reserved self.now printer.entry.level id)) }
    {
        printer.push_attrs(out, "#[", self.attrs(id))?;
        self.push_own(out, printer, id)
    }

    // The lines of an item behind its attributes.
    #[cycle(page)]
    #[tactic(auto, using(crate::proofs::Walking::parent_counts, crate::proofs::Walking::children_contained))]
    fn push_own(&self, out: &mut String, printer: Printer, id: ModItemId) -> Result<(), AllocError>
        requires contained { IsContained self.now id }
        requires level_fits { printer.level + count_at self.now id < 2 ^ 64 }
        ensures { let reserved = printer.entry.edition.now.reserved.items in
            OnOk result (Gains out.old out.new (own_lines_at reserved self.now printer.entry.level id)) }
    {
        // The lines of an item that has a name and a visibility.
        macro_rules! named {
            ($ast_id:ident, $item:ident, $word:literal, $end:literal) => {{
                let visibility = &self[$item.visibility];
                printer.push_named(out, $ast_id, visibility, $word, &$item.name, $end)
            }};
        }
        match self.index(id) {
            ModItemKind::Const(ast_id, item) => {
                printer.push_const(out, ast_id, item, &self[item.visibility])
            }
            ModItemKind::Enum(ast_id, item) => named!(ast_id, item, "enum", " { ... }"),
            ModItemKind::ExternBlock(ast_id, item) => {
                printer.push_fixed(out, ast_id, "extern {")?;
                self.push_below(out, printer, &item.children)
            }
            ModItemKind::ExternCrate(ast_id, item) => {
                printer.push_extern_crate(out, ast_id, item, &self[item.visibility])
            }
            ModItemKind::Function(ast_id, item) => named!(ast_id, item, "fn", ";"),
            ModItemKind::Impl(ast_id, _) => printer.push_fixed(out, ast_id, "impl { ... }"),
            ModItemKind::Macro2(ast_id, item) => named!(ast_id, item, "macro", " { ... }"),
            ModItemKind::MacroCall(ast_id, item) => printer.push_macro_call(out, ast_id, item),
            ModItemKind::MacroRules(ast_id, item) => printer.push_macro_rules(out, ast_id, item),
            ModItemKind::Mod(ast_id, item) => self.push_module(out, printer, id, ast_id, item),
            ModItemKind::Static(ast_id, item) => named!(ast_id, item, "static", " = _;"),
            ModItemKind::Struct(ast_id, item) => named!(ast_id, item, "struct", " { ... }"),
            ModItemKind::Trait(ast_id, item) => named!(ast_id, item, "trait", " { ... }"),
            ModItemKind::TypeAlias(ast_id, item) => named!(ast_id, item, "type", ";"),
            ModItemKind::Union(ast_id, item) => named!(ast_id, item, "union", " { ... }"),
            ModItemKind::Use(ast_id, item) => {
                printer.push_use(out, ast_id, item, &self[item.visibility()])
            }
        }
    }

    // The lines of a module behind its attributes.
    #[cycle(page)]
    #[tactic(auto, using(crate::proofs::Walking::parent_counts, crate::proofs::Walking::children_contained))]
    fn push_module(
        &self,
        out: &mut String,
        printer: Printer,
        id: ModItemId,
        ast_id: FileAstId,
        item: &Mod,
    ) -> Result<(), AllocError>
        requires lent { IsModule self.now id ast_id item.now.name item.now.visibility
            item.now.kind }
        requires level_fits { printer.level + count_at self.now id < 2 ^ 64 }
        ensures { let reserved = printer.entry.edition.now.reserved.items in
            OnOk result (Gains out.old out.new (own_lines_at reserved self.now printer.entry.level id)) }
    {
        let visibility = &self[item.visibility];
        match &item.kind {
            ModKind::Inline { items } => {
                printer.push_named(out, ast_id, visibility, "mod", &item.name, " {")?;
                self.push_below(out, printer, items)
            }
            ModKind::Outline => {
                printer.push_named(out, ast_id, visibility, "mod", &item.name, ";")
            }
        }
    }

    // The items in an item, one level deeper, and the line that ends it.
    #[cycle(page)]
    fn push_below(
        &self,
        out: &mut String,
        printer: Printer,
        ids: &[ModItemId],
    ) -> Result<(), AllocError>
        requires contained { AreContained self.now ids.now }
        requires level_fits { printer.level + 1 + sum_by (count_at self.now) ids.now < 2 ^ 64 }
        ensures { let reserved = printer.entry.edition.now.reserved.items in
            OnOk result (Gains out.old out.new (list_lines reserved self.now (printer.entry.level + 1) ids.now
            ++ text printer.entry.level (codes "}") ∷ [])) }
    {
        let inner = Printer {
            level: printer.level + 1,
            ..printer
        };
        self.push_items(out, inner, ids)?;
        push_line(out, printer.level, "}")
    }

    #[cycle(page)]
    fn push_items(
        &self,
        out: &mut String,
        printer: Printer,
        ids: &[ModItemId],
    ) -> Result<(), AllocError>
        requires contained { AreContained self.now ids.now }
        requires level_fits { printer.level + sum_by (count_at self.now) ids.now < 2 ^ 64 }
        ensures { let reserved = printer.entry.edition.now.reserved.items in
            OnOk result (Gains out.old out.new (list_lines reserved self.now printer.entry.level ids.now)) }
    {
        for (place, id) in ids.iter().enumerate() {
            if place > 0 {
                push_blank(out)?;
            }
            self.push_item(out, printer, *id)?;
        }
        Ok(())
    }

    /// The page of the tree in an edition: the top attributes, and for each item its attributes, a line with its id
    /// and a line with its header, the items in it four spaces deeper. There is a blank line between the top attributes
    /// and the items, and between the items of a list. The page of the empty tree is one line feed.
    ///
    /// Stands for rust-analyzer's `ItemTree::pretty_print`.
    ///
    /// # Errors
    ///
    /// Only if memory runs out.
    #[tactic(auto, using(crate::proofs::Walking::ids_contained, crate::proofs::Walking::ids_count))]
    pub fn pretty_print(&self, alloc: Global, edition: &Edition) -> Result<String, AllocError>
        ensures { IfOk result (λ text. string_bytes text
            ≡ page edition.now.reserved.items self.now) }
    {
        let mut out = String::new(alloc);
        let attrs = self.top_level_attrs();
        let ids = self.top_level_items();
        let printer = Printer {
            alloc,
            edition,
            level: 0,
        };
        printer.push_attrs(&mut out, "#![", attrs)?;
        push_gap(&mut out, attrs.is_some(), !ids.is_empty())?;
        self.push_items(&mut out, printer, ids)?;
        Ok(out)
    }
}
