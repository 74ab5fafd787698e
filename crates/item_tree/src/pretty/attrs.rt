//! Attribute lines of a page.
ghost use Rattle.std.specs.Prelude.{◌≡◌, ◌++◌, IfOk, OnOk, option_map, string_bytes, flat_map};
ghost use Rattle.hir_input.specs.Cfg.{cfg_view};
ghost use Rattle.item_tree_attrs.specs.Collected.{collection_of};
ghost use Rattle.item_tree_attrs.specs.Query.{listed_attrs};
ghost use Rattle.item_tree.specs.Line.{lines_of_text};
ghost use Rattle.item_tree.specs.Page.{attr_text, false_cfg_text, shown_input};
ghost use Rattle.item_tree.specs.Inner.PageByIds.{Gains, lent_lines};

use super::Printer;
use crate::line::push_text;
use hir_input::{Attr, AttrInput, CfgExpr};
use item_tree_attrs::{Attrs, AttrsOrCfg};
use std::alloc::AllocError;

impl Printer<'_> {
    // The lines of attributes, if there are any, and of the cfg behind them. Each begins with the opening.
    pub(super) fn push_attrs(
        self,
        out: &mut String,
        opening: &str,
        attrs: Option<&AttrsOrCfg>,
    ) -> Result<(), AllocError>
        ensures { let reserved = self.entry.edition.now.reserved.items in
            let lines = lent_lines reserved opening.now self.entry.level
            (option_map (λ a. collection_of a.now) attrs.entry) in
            OnOk result (Gains out.old out.new lines) }
    {
        match attrs {
            None => Ok(()),
            Some(AttrsOrCfg::Enabled { attrs }) => self.push_enabled(out, opening, attrs.as_ref()),
            Some(AttrsOrCfg::CfgDisabled(both)) => {
                self.push_enabled(out, opening, both.1.as_ref())?;
                self.push_false_cfg(out, opening, &both.0)
            }
        }
    }

    fn push_enabled(
        self,
        out: &mut String,
        opening: &str,
        attrs: Attrs<'_>,
    ) -> Result<(), AllocError>
        ensures { let reserved = self.entry.edition.now.reserved.items in
            let lines = flat_map (λ a. lines_of_text self.entry.level (attr_text reserved opening.now a))
            (listed_attrs attrs.entry) in
            OnOk result (Gains out.old out.new lines) }
    {
        for attr in attrs.as_slice() {
            let text = self.attr_text(opening, attr)?;
            push_text(out, self.level, &text)?;
        }
        Ok(())
    }

    #[tactic(auto, unfolding(crate::specs::Page::false_cfg_text))]
    fn push_false_cfg(
        self,
        out: &mut String,
        opening: &str,
        cfg: &CfgExpr,
    ) -> Result<(), AllocError>
        ensures { let lines = lines_of_text self.entry.level
            (false_cfg_text opening.now (cfg_view cfg.now)) in
            OnOk result (Gains out.old out.new lines) }
    {
        let text = format!(in self.alloc; "{opening}cfg({cfg})]")?;
        push_text(out, self.level, &text)
    }

    #[tactic(auto, unfolding(crate::specs::Page::attr_text))]
    fn attr_text(self, opening: &str, attr: &Attr) -> Result<String, AllocError>
        ensures { IfOk result (λ text. string_bytes text
            ≡ attr_text self.entry.edition.now.reserved.items opening.now attr.now) }
    {
        let path = attr.path.display(self.edition);
        let mut text = format!(in self.alloc; "{opening}{path}")?;
        push_input(&mut text, &attr.input)?;
        text.push(']')?;
        Ok(text)
    }
}

// What stands behind the path of an attribute.
fn push_input(text: &mut String, input: &Option<AttrInput>) -> Result<(), AllocError>
    ensures { OnOk result (string_bytes text.new ≡ string_bytes text.old ++ shown_input input.now) }
{
    match input {
        None => Ok(()),
        Some(AttrInput::Literal(literal)) => {
            text.push_str(" = ")?;
            text.push_str(literal.rendered.as_str())
        }
        Some(AttrInput::TokenTree(tokens)) => text.push_str(tokens.rendered.as_str()),
    }
}
