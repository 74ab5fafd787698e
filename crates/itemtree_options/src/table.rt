//! The commands and their arguments, with what help says of them.
use crate::arguments::{
    ACTIVE, ALL_FEATURES, APPEND, Argument, BODIES, CFG, CFG_OF_CRATE, CFG_OF_TREE, COLOR, DEPTH,
    DOCS, DOCS_TOO, DUPLICATES, EDITION, EXCLUDE, EXCMD, FEATURES, FIELDS, FILES, FILES_FROM,
    FILES_OR_CRATE, FLAT, FOLLOW, HIDDEN, HOST_CFG, HOST_CFG_OF_CRATE, HOST_CFG_OF_TREE, IDS,
    IGNORE_CASE, JSON, JSON_CHANGES, JSON_FOUND, JSON_IMPORTS, JSON_MODULES, KIND, KRATE, NAME,
    NEW, NO_BODIES, NO_DEFAULT_FEATURES, NO_MEMBERS, OLD, OPENED, ORPHANS, OUTPUT, PUBLIC, QUIET,
    RELATIVE, RESOLVE, ROOT, SHOW, SKIP, SKIP_OF_TREE, TREE, UNRESOLVED,
};

/// A command, with what stands behind its help.
pub(crate) struct Description {
    pub(crate) name: &'static str,
    pub(crate) about: &'static str,
    pub(crate) after: &'static str,
    pub(crate) arguments: &'static [Argument],
}

static OUTLINE: Description = Description {
    name: "outline",
    about: "Lists the items of files and their members",
    after: "Example: itemtree outline --cfg 'feature=\"extra\"' --active --depth 2 src

Status: 0, or 2 at an error",
    arguments: &[
        EDITION,
        HIDDEN,
        FOLLOW,
        EXCLUDE,
        CFG,
        HOST_CFG,
        ACTIVE,
        NO_MEMBERS,
        DEPTH,
        COLOR,
        JSON,
        FILES_FROM,
        FILES_OR_CRATE,
        KRATE,
        FEATURES,
        ALL_FEATURES,
        NO_DEFAULT_FEATURES,
        FLAT,
        OPENED,
    ],
};

static PAGE: Description = Description {
    name: "page",
    about: "Writes the debug pages of item trees, as rust-analyzer shows them",
    after: "Example: itemtree page --ids off src/lib.rs

Status: 0, or 2 at an error",
    arguments: &[
        EDITION,
        HIDDEN,
        FOLLOW,
        EXCLUDE,
        CFG,
        HOST_CFG,
        SKIP,
        DOCS,
        IDS,
        FILES_FROM,
        FILES_OR_CRATE,
        KRATE,
        FEATURES,
        ALL_FEATURES,
        NO_DEFAULT_FEATURES,
    ],
};

static IMPORTS: Description = Description {
    name: "imports",
    about: "Lists the imports of files",
    after: "Example: itemtree imports --duplicates src

Status: 0, or 1 with --duplicates or --unresolved if there are some, 2 at an error",
    arguments: &[
        EDITION,
        HIDDEN,
        FOLLOW,
        EXCLUDE,
        CFG,
        HOST_CFG,
        ACTIVE,
        DUPLICATES,
        RESOLVE,
        UNRESOLVED,
        COLOR,
        JSON_IMPORTS,
        QUIET,
        FILES_FROM,
        FILES_OR_CRATE,
        KRATE,
        FEATURES,
        ALL_FEATURES,
        NO_DEFAULT_FEATURES,
    ],
};

static FIND: Description = Description {
    name: "find",
    about: "Tells where a name or a path of names is declared",
    after: "Example: itemtree find Circle::area src

Status: 0 if something is found, 1 if nothing is, 2 at an error",
    arguments: &[
        EDITION,
        HIDDEN,
        FOLLOW,
        EXCLUDE,
        CFG,
        HOST_CFG,
        ACTIVE,
        NO_MEMBERS,
        IGNORE_CASE,
        KIND,
        COLOR,
        JSON_FOUND,
        QUIET,
        FILES_FROM,
        NAME,
        FILES_OR_CRATE,
        KRATE,
        FEATURES,
        ALL_FEATURES,
        NO_DEFAULT_FEATURES,
    ],
};

static TAGS: Description = Description {
    name: "tags",
    about: "Writes a tags file, by which editors jump to names",
    after: "Example: itemtree tags src

An old tags file is replaced where anything could be read. What is no tags file is left as it is.

Status: 0, or 2 at an error, or where nothing could be read",
    arguments: &[
        EDITION,
        HIDDEN,
        FOLLOW,
        EXCLUDE,
        CFG,
        HOST_CFG,
        ACTIVE,
        NO_MEMBERS,
        OUTPUT,
        APPEND,
        FILES_FROM,
        FILES_OR_CRATE,
        KRATE,
        FEATURES,
        ALL_FEATURES,
        NO_DEFAULT_FEATURES,
        EXCMD,
        FIELDS,
        RELATIVE,
        BODIES,
    ],
};

static MODULES: Description = Description {
    name: "modules",
    about: "Lists the modules of a crate, each with its file, as its mod items lead to them",
    after: "Example: itemtree modules src/lib.rs

Where no cfg is given, those of x86-64 Linux are set, and the features of the package.

Status: 0, or 1 if a module has no file or there are orphans, 2 at an error",
    arguments: &[
        EDITION,
        HIDDEN,
        FOLLOW,
        EXCLUDE,
        CFG,
        HOST_CFG,
        FEATURES,
        ALL_FEATURES,
        NO_DEFAULT_FEATURES,
        COLOR,
        JSON_MODULES,
        QUIET,
        ORPHANS,
        ROOT,
    ],
};

static CHANGED: Description = Description {
    name: "changed",
    about: "Lists the items and members that differ between two files, but for bodies of functions",
    after: "Example: itemtree changed old/lib.rs src/lib.rs

Signatures, fields, variants, values, attributes and members are compared too. With --tree nothing is told
of equal item trees, which keep of these attributes alone, and not those that are left out, as #[repr].

Status: 0 if nothing differs, 1 if something does, 2 at an error",
    arguments: &[
        EDITION,
        HIDDEN,
        FOLLOW,
        EXCLUDE,
        DOCS_TOO,
        TREE,
        PUBLIC,
        CFG_OF_TREE,
        HOST_CFG_OF_TREE,
        SKIP_OF_TREE,
        COLOR,
        JSON_CHANGES,
        QUIET,
        OLD,
        NEW,
    ],
};

static REQUEST: Description = Description {
    name: "request",
    about: "Writes the request in JSON that sets these files, as item_tree_tool reads it",
    after: "Example: itemtree request --show page src/lib.rs | item_tree_tool

Status: 0, or 2 at an error; then nothing is written",
    arguments: &[
        EDITION, HIDDEN, FOLLOW, EXCLUDE, CFG, HOST_CFG, SKIP, DOCS, SHOW, NO_BODIES, FILES_FROM,
        FILES,
    ],
};

static SERVE: Description = Description {
    name: "serve",
    about: "Answers requests in JSON line by line: each line of standard input by one of standard output",
    after: "Example: echo '{\"crates\":[{\"root\":0}],\"edits\":[],\"shows\":[]}' | itemtree serve

Status: 0 at the end of the input, 2 if the command line is wrong, 6 if reading or writing fails",
    arguments: &[],
};

static LSP: Description = Description {
    name: "lsp",
    about: "Answers an editor about the Rust texts that are open in it: a server of the Language Server Protocol",
    after: "Example: itemtree lsp < /dev/null

Status: 0 if the editor ends it as the protocol says, 1 if not, 2 if the command line is wrong, 6 if reading or
writing fails",
    arguments: &[EDITION, CFG, HOST_CFG],
};

static CHECK: Description = Description {
    name: "check",
    about: "Tells which items, brackets and quotes of files could not be read",
    after: "Example: itemtree check src

This is no syntax check. It sees words that begin no item, items without an end or a name, brackets and quotes
that do not pair, and paths and attributes that cannot be read; not what else signatures, types and bodies hold.

Status: 0 if nothing is wrong, 1 if something is, 2 at an error",
    arguments: &[
        EDITION,
        CFG_OF_CRATE,
        HOST_CFG_OF_CRATE,
        HIDDEN,
        FOLLOW,
        EXCLUDE,
        COLOR,
        QUIET,
        FILES_FROM,
        FILES_OR_CRATE,
        KRATE,
        FEATURES,
        ALL_FEATURES,
        NO_DEFAULT_FEATURES,
    ],
};

/// The commands, as help lists them.
pub(crate) fn descriptions() -> [&'static Description; 11] {
    [
        &OUTLINE, &PAGE, &IMPORTS, &FIND, &TAGS, &MODULES, &CHANGED, &REQUEST, &SERVE, &LSP, &CHECK,
    ]
}
