//! How lists are made under the options.
ghost use Rattle.std.specs.Prelude.{◌≡◌, option_copied};
ghost use Rattle.itemtree_commands.specs.Answers as spec;
ghost use Rattle.itemtree_commands.specs.Inner.{reading_by};
ghost use Rattle.source_listing.specs.Views.{look_view, reading_view};

use crate::Options;
use hir_input::CfgOptions;
use list_forms::Form;
use source_listing::{Look, Reading};
use source_rows::MendedFile;

impl Options {
    pub(crate) fn look(
        &self,
        depth: Option<usize>,
        has_imports: bool,
        form: Form,
        is_flat: bool,
    ) -> Look
        ensures { look_view result ≡ spec.look_of self.now depth has_imports form is_flat }
    {
        Look {
            choice: self.choice(depth),
            form,
            is_flat,
            has_imports,
        }
    }

    /// The cfgs that are set, if members, or the items in bodies, are listed under them.
    pub(crate) fn cfgs_if(&self, is_asked: bool) -> Option<&CfgOptions>
        ensures { option_copied result ≡ spec.cfgs_if self.now is_asked }
    {
        if is_asked {
            Some(&self.krate.cfg)
        } else {
            None
        }
    }

    /// How headers and members are read.
    pub(crate) fn reading<'a>(
        &'a self,
        text: &'a str,
        mended: &'a Option<MendedFile>,
        has_members: bool,
    ) -> Reading<'a>
        ensures { reading_view result ≡ reading_by self.now has_members text.now mended.now }
    {
        Reading {
            text,
            mended: mended.as_ref(),
            edition: self.edition.year,
            options: self.cfgs_if(has_members),
        }
    }
}
