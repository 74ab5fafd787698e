//! The arguments of commands, with what help says of them.
use clap::ArgAction;
use clap::builder::ValueParser;

/// Where an argument stands.
#[derive(Clone, Copy)]
pub(crate) enum Form {
    /// Behind two hyphens.
    Long,
    /// So, or this letter behind one.
    Short(char),
    /// At its place, where it has to be.
    Word,
    /// At its place, where it has to be if no file lists others.
    Unlisted,
    /// The same if no crate is given either.
    Uncrated,
}

/// The argument that lists files.
pub(crate) const LIST: &str = "files-from";

/// The argument that names a crate.
pub(crate) const CRATE: &str = "crate";

/// The cfgs that rustc 1.95 sets for x86-64 Linux.
pub(crate) const HOST_CFGS: [&str; 19] = [
    "debug_assertions",
    "panic=\"unwind\"",
    "target_abi=\"\"",
    "target_arch=\"x86_64\"",
    "target_endian=\"little\"",
    "target_env=\"gnu\"",
    "target_family=\"unix\"",
    "target_feature=\"fxsr\"",
    "target_feature=\"sse\"",
    "target_feature=\"sse2\"",
    "target_has_atomic=\"16\"",
    "target_has_atomic=\"32\"",
    "target_has_atomic=\"64\"",
    "target_has_atomic=\"8\"",
    "target_has_atomic=\"ptr\"",
    "target_os=\"linux\"",
    "target_pointer_width=\"64\"",
    "target_vendor=\"unknown\"",
    "unix",
];

/// An argument of a command.
pub(crate) struct Argument {
    pub(crate) id: &'static str,
    pub(crate) form: Form,
    pub(crate) action: ArgAction,
    /// The most values that it takes at once.
    pub(crate) most: usize,
    /// How help calls its value.
    pub(crate) value: &'static str,
    pub(crate) parser: ValueParser<'static>,
    /// Its value where it is not given, if it has one.
    pub(crate) default: &'static [&'static str],
    /// What has to be given too.
    pub(crate) needs: &'static [&'static str],
    /// What must not be given too.
    pub(crate) bars: &'static [&'static str],
    pub(crate) help: &'static str,
}

const FLAG: Argument = Argument {
    id: "",
    form: Form::Long,
    action: ArgAction::SetTrue,
    most: 0,
    value: "",
    parser: ValueParser::Bool,
    default: &[],
    needs: &[],
    bars: &[],
    help: "",
};

/// An argument like another but for these fields and its help.
macro_rules! argument {
    ($base:ident $($field:ident: $value:expr),*; $help:literal) => {
        Argument { $($field: $value,)* help: $help, ..$base }
    };
}

const ONE: Argument =
    argument!(FLAG action: ArgAction::Set, most: 1, parser: ValueParser::String; "");

const SEVERAL: Argument = argument!(ONE action: ArgAction::Append; "");

const WORD: Argument = argument!(ONE form: Form::Word; "");

pub(crate) const FILES: Argument =
    argument!(SEVERAL id: "files", form: Form::Unlisted, value: "FILE", most: usize::MAX;
    "Rust files; a folder stands for its .rs files at every depth, and - for standard input");

pub(crate) const FILES_FROM: Argument =
    argument!(SEVERAL id: LIST, form: Form::Short('L'), value: "LIST";
    "Read the files and folders that this file names too, one on each line; - for standard input");

pub(crate) const FILES_OR_CRATE: Argument = Argument {
    form: Form::Uncrated,
    ..FILES
};

pub(crate) const KRATE: Argument = argument!(ONE id: CRATE, value: "ROOT", bars: &["files", LIST];
    "Take the files of a crate, as its mod items lead to them from its root file on; a folder with a Cargo.toml stands
for the crates of its package");

pub(crate) const ROOT: Argument = argument!(WORD id: CRATE, value: "ROOT";
    "The root file of a crate, or a folder with a Cargo.toml, for the crates of its package");

pub(crate) const FEATURES: Argument =
    argument!(SEVERAL id: "features", needs: &[CRATE], bars: &["files", LIST], value: "FEATURES";
    "Features of the package that are enabled, with commas between them; may be given several times");

pub(crate) const ALL_FEATURES: Argument =
    argument!(FLAG id: "all-features", needs: &[CRATE], bars: &["files", LIST]; "Enable all features of the package");

pub(crate) const NO_DEFAULT_FEATURES: Argument =
    argument!(FLAG id: "no-default-features", needs: &[CRATE], bars: &["files", LIST];
    "Do not enable the feature default of the package");

pub(crate) const ORPHANS: Argument = argument!(FLAG id: "orphans";
    "List the Rust files below the folder of the root file that no module is in, instead");

pub(crate) const JSON_MODULES: Argument = argument!(JSON id: "json";
    "Write a JSON object for each module, on a line of its own");

pub(crate) const EDITION: Argument =
    argument!(ONE id: "edition", form: Form::Short('e'), value: "YEAR",
    parser: ValueParser::Names(&["2015", "2018", "2021", "2024"]), default: &["2024"];
    "The edition of the files: its keywords cannot be names, and are written as r#NAME");

pub(crate) const HIDDEN: Argument = argument!(FLAG id: "hidden";
    "Of folders, take hidden entries and the target folders of cargo too");

pub(crate) const FOLLOW: Argument = argument!(FLAG id: "follow";
    "Of folders, go through the folders that links there lead to, each once");

pub(crate) const EXCLUDE: Argument = argument!(SEVERAL id: "exclude", value: "GLOB";
    "Of folders, leave out what has such a name or path: a/b below the folder, or as it is listed");

pub(crate) const CFG: Argument = argument!(SEVERAL id: "cfg", value: "SPEC";
    "A cfg that is set: NAME or KEY=\"VALUE\"; may be given several times");

pub(crate) const HOST_CFG: Argument = argument!(FLAG id: "host-cfg";
    "Set the cfgs of x86-64 Linux, as rustc --print cfg tells them");

pub(crate) const ACTIVE: Argument = argument!(FLAG id: "active"; "Leave out what a cfg disables");

pub(crate) const NO_MEMBERS: Argument =
    argument!(FLAG id: "no-members"; "Leave out the members of items");

pub(crate) const SKIP: Argument = argument!(SEVERAL id: "skip", value: "NAME";
    "An attribute to leave out of the tree; may be given several times. If it is not given, these are:
doc, stable, unstable, target_feature, allow, expect, warn, deny, forbid, repr, inline, track_caller, must_use");

pub(crate) const DOCS: Argument =
    argument!(FLAG id: "docs"; "Keep documentation, if --skip is not given");

pub(crate) const DEPTH: Argument =
    argument!(ONE id: "depth", value: "N", parser: ValueParser::Unsigned(0, u32::MAX as u64);
    "Only the outermost N levels of items and members");

pub(crate) const COLOR: Argument = argument!(ONE id: "color", value: "WHEN",
    parser: ValueParser::Names(&["auto", "always", "never"]), default: &["auto"];
    "Whether lines are in colour; auto: on a terminal, unless NO_COLOR is set");

pub(crate) const JSON: Argument = argument!(FLAG id: "json";
    "Write a JSON object for each file, on a line of its own");

pub(crate) const FLAT: Argument = argument!(FLAG id: "flat";
    "Write lines without blanks in front, and names behind those around them; with --json, an object for each line");

pub(crate) const OPENED: Argument = argument!(FLAG id: "imports";
    "A line for each import of a use that has a list, too; with --json only if --flat is given");

pub(crate) const IDS: Argument = argument!(ONE id: "ids", value: "WHEN",
    parser: ValueParser::Names(&["on", "off"]), default: &["on"];
    "Whether rust-analyzer's ids of items are written");

pub(crate) const DUPLICATES: Argument = argument!(FLAG id: "duplicates";
    "Only imports that repeat an earlier one of their module, each with its place");

pub(crate) const RESOLVE: Argument = argument!(FLAG id: "resolve", needs: &[CRATE],
    bars: &["files", LIST, "duplicates"]; "Tell what each import of the crate resolves to");

pub(crate) const UNRESOLVED: Argument = argument!(FLAG id: "unresolved", needs: &[CRATE],
    bars: &["files", LIST, "duplicates"]; "As --resolve, but only the imports that check --crate tells");

pub(crate) const IGNORE_CASE: Argument = argument!(FLAG id: "ignore-case", form: Form::Short('i');
    "Take letters of two cases as one");

pub(crate) const KIND: Argument = argument!(SEVERAL id: "kind", value: "KIND",
    parser: ValueParser::Names(&["const", "enum", "extern-crate", "field", "fn", "macro", "macro_rules", "mod",
        "static", "struct", "trait", "type", "union", "variant"]);
    "Only what is of this kind; may be given several times");

pub(crate) const QUIET: Argument = argument!(FLAG id: "quiet", form: Form::Short('q');
    "Write nothing: the status tells");

pub(crate) const JSON_CHANGES: Argument = argument!(JSON id: "json";
    "Write a JSON object for each change, on a line of its own");

pub(crate) const JSON_IMPORTS: Argument = argument!(JSON id: "json";
    "Write a JSON object for each import, on a line of its own; not with --duplicates");

pub(crate) const JSON_FOUND: Argument = argument!(JSON id: "json";
    "Write a JSON object for each item and member that is found, on a line of its own");

pub(crate) const NAME: Argument = argument!(WORD id: "name", value: "NAME";
    "f or b::f at any depth, T::f in an impl of T too; ::a::b::f or crate::a::b::f from a file's top.
In the last name * is any characters, and ? any one");

pub(crate) const OUTPUT: Argument =
    argument!(ONE id: "output", form: Form::Short('o'), value: "FILE", default: &["tags"];
    "The tags file; - for standard output");

pub(crate) const APPEND: Argument = argument!(FLAG id: "append", form: Form::Short('a');
    "Keep what stands in the tags file");

pub(crate) const EXCMD: Argument = argument!(ONE id: "excmd", value: "HOW",
    parser: ValueParser::Names(&["pattern", "number", "mixed"]), default: &["pattern"];
    "How editors find tags: by a search for the line, or by its number; mixed is pattern, as for Rust in ctags");

pub(crate) const FIELDS: Argument = argument!(ONE id: "fields", value: "FIELDS";
    "Which of the fields k, n, l, s, a, S and e tags have; behind + or -, the usual ones with or without these");

pub(crate) const BODIES: Argument =
    argument!(FLAG id: "bodies"; "Tag the items in the bodies of functions too");

pub(crate) const RELATIVE: Argument = argument!(ONE id: "tag-relative", value: "HOW",
    parser: ValueParser::Names(&["no", "yes", "always", "never"]), default: &["no"];
    "Whether paths begin at the folder of the tags file; always: absolute ones too; never: all are absolute");

pub(crate) const DOCS_TOO: Argument = argument!(DOCS id: "docs";
    "Compare documentation too; with --tree, if --skip is not given");

pub(crate) const TREE: Argument = argument!(FLAG id: "tree";
    "Tell nothing where the item trees are equal, which keep no signatures, fields, variants, values or members");

pub(crate) const PUBLIC: Argument = argument!(FLAG id: "public", bars: &["tree"];
    "Tell nothing of what is seen in its module alone, by the visibilities that are written; not with --tree");

pub(crate) const CFG_OF_TREE: Argument = Argument {
    needs: &["tree"],
    ..CFG
};

pub(crate) const HOST_CFG_OF_TREE: Argument = Argument {
    needs: &["tree"],
    ..HOST_CFG
};

pub(crate) const CFG_OF_CRATE: Argument = Argument {
    needs: &[CRATE],
    bars: &["files", LIST],
    ..CFG
};

pub(crate) const HOST_CFG_OF_CRATE: Argument = Argument {
    needs: &[CRATE],
    bars: &["files", LIST],
    ..HOST_CFG
};

pub(crate) const SKIP_OF_TREE: Argument = Argument {
    needs: &["tree"],
    ..SKIP
};

pub(crate) const OLD: Argument = argument!(WORD id: "old", value: "OLD";
    "The file as it was, or a folder; - for standard input");

pub(crate) const NEW: Argument = argument!(WORD id: "new", value: "NEW";
    "The file as it is now, or a folder; - for standard input");

pub(crate) const SHOW: Argument = argument!(SEVERAL id: "show", value: "KIND",
    parser: ValueParser::Names(&["page", "tree", "imports"]);
    "What the request asks to be shown of each file; may be given several times");

pub(crate) const NO_BODIES: Argument =
    argument!(FLAG id: "no-bodies"; "Leave the texts of bodies out");
