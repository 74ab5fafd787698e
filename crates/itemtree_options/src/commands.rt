//! The commands.

/// What an outline tells.
#[derive(Clone, Copy)]
pub struct OutlineAsked {
    /// How many levels are listed; nothing: all.
    pub depth: Option<usize>,
    /// Whether names stand behind those of what is around them.
    pub is_flat: bool,
    /// Whether the imports of uses that have a list are listed.
    pub has_imports: bool,
}

/// A command, and what it alone is told.
#[derive(Clone, Copy)]
pub enum Command<'a> {
    Outline(OutlineAsked),
    Page {
        /// Whether ids are written.
        has_ids: bool,
    },
    Imports,
    /// `imports --duplicates`.
    Duplicates,
    /// `imports --resolve`.
    Resolve {
        /// Whether only the imports are listed that `check --crate` tells.
        only_wrong: bool,
    },
    Find {
        /// A name, or a path of names.
        name: &'a str,
        /// Whether letters of two cases are one.
        ignores_case: bool,
    },
    Tags {
        /// The file to write.
        output: &'a str,
        /// Whether the command line names that.
        is_named: bool,
        /// Whether what stands in it is kept.
        is_appended: bool,
        /// How editors find tags: `pattern`, `number` or `mixed`.
        excmd: &'a str,
        /// The fields that tags have, as letters and names; nothing: the usual ones.
        fields: Option<&'a str>,
        /// Whether the items in the bodies of functions have tags.
        has_bodies: bool,
        /// Whether paths begin at its folder: `no`, `yes`, `always` (absolute ones too) or `never` (all are absolute).
        relative: &'a str,
    },
    Modules {
        /// Whether the files without a module are listed instead.
        has_orphans: bool,
    },
    Changed {
        old: &'a str,
        new: &'a str,
        /// Whether only the item trees are compared.
        is_of_trees: bool,
        /// Whether only what is seen outside of its module counts.
        is_public: bool,
    },
    Request {
        /// Whether the texts of bodies are written.
        has_bodies: bool,
    },
    Serve,
    Lsp,
    Check,
}
