//! How names and paths are displayed.
ghost use Rattle.std.specs.Prelude.{◌≡◌, ◌<◌, Some, replicate, codes, map};
ghost use Rattle.std.specs.Fmt.{WritesOnOk};
ghost use Rattle.hir_input.specs.Name.{shown_name};
ghost use Rattle.hir_input.specs.Path.{by_colons, first_words, shown_more, shown_path};

use crate::edition::Edition;
use crate::mod_path::{ModPath, PathKind};
use crate::name::Name;
use std::fmt;
use std::fmt::Display;
use std::marker::Model;

/// What is written as a text that depends on the edition.
pub trait Written {
    ghost use Rattle.std.specs.Prelude.{ℕ, List};
    ghost use Rattle.std.specs.Fmt.{WritesOnOk};

    // Its text under these reserved words.
    ghost shown: { List (List ℕ) → Self → List ℕ };

    /// Writes the text in an edition.
    fn write<W: fmt::Write>(&self, edition: &Edition, f: &mut fmt::Formatter<W>) -> fmt::Result
        ensures { WritesOnOk W.write_str_gives f.old result (shown edition.now.reserved.items self.now) f.new };
}

/// A value as it is written in an edition. In place of the `impl Display` of rust-analyzer's `display` methods.
#[derive(Drop)]
pub struct InEdition<'a, T: Written> {
    value: &'a T,
    edition: &'a Edition,
}

impl<'a, T: Written> Model for InEdition<'a, T> {
    ghost use Rattle.std.specs.Prelude.{ℕ, List};

    ghost Value = { List ℕ };

    ghost view = { λ d. T.shown d.edition.now.reserved.items d.value.now };
}

impl<'a, T: Written> InEdition<'a, T> {
    /// The value as it is written in the edition.
    pub fn new(value: &'a T, edition: &'a Edition) -> InEdition<'a, T>
        ensures { result ≡ T.shown edition.now.reserved.items value.now }
    {
        InEdition { value, edition }
    }
}

impl<T: Written> fmt::Display for InEdition<'_, T> {
    ghost output = { λ d. Some d };

    fn fmt<W: fmt::Write>(&self, f: &mut fmt::Formatter<W>) -> fmt::Result {
        self.value.write(self.edition, f)
    }
}

/// A name as it is written in an edition.
pub type NameDisplay<'a> = InEdition<'a, Name>;

/// A path as it is written in an edition.
pub type ModPathDisplay<'a> = InEdition<'a, ModPath>;

impl Name {
    /// The name as it is written in an edition: reserved words have `r#` in front.
    pub fn display<'a>(&'a self, edition: &'a Edition) -> NameDisplay<'a>
        ensures { result ≡ shown_name edition.now.reserved.items self.now }
    {
        InEdition::new(self, edition)
    }
}

impl ModPath {
    /// The path as it is written in an edition.
    pub fn display<'a>(&'a self, edition: &'a Edition) -> ModPathDisplay<'a>
        ensures { result ≡ shown_path edition.now.reserved.items self.now }
    {
        InEdition::new(self, edition)
    }
}

impl Written for Name {
    ghost shown = { shown_name };

    fn write<W: fmt::Write>(&self, edition: &Edition, f: &mut fmt::Formatter<W>) -> fmt::Result {
        let text = self.text();
        if edition.reserves(self) {
            return write!(f, "r#{text}");
        }
        f.write_str(text)
    }
}

// `super`, n times.
#[tactic(auto, using(std::proofs::lemmas::Grind::common_steps))]
fn write_supers<W: fmt::Write>(n: u32, f: &mut fmt::Formatter<W>) -> fmt::Result
    requires { 0 < n }
    ensures { let words = replicate n (codes "super") in
        WritesOnOk W.write_str_gives f.old result (by_colons words) f.new }
{
    f.write_str("super")?;
    for _i in 1..n {
        f.write_str("::super")?;
    }
    Ok(())
}

// The words of a kind.
fn write_kind<W: fmt::Write>(kind: PathKind, f: &mut fmt::Formatter<W>) -> fmt::Result
    ensures { WritesOnOk W.write_str_gives f.old result (by_colons (first_words kind)) f.new }
{
    match kind {
        PathKind::Plain => Ok(()),
        PathKind::Super(0) => f.write_str("self"),
        PathKind::Super(n) => write_supers(n, f),
        PathKind::Crate => f.write_str("crate"),
        PathKind::Abs => Ok(()),
        PathKind::DollarCrate(_) => f.write_str("$crate"),
    }
}

// Names behind other words.
#[tactic(auto, using(std::proofs::lemmas::Grind::common_steps))]
fn write_names<W: fmt::Write>(
    names: &[Name],
    edition: &Edition,
    f: &mut fmt::Formatter<W>,
) -> fmt::Result
    ensures { let text = shown_more edition.now.reserved.items names.now in
        WritesOnOk W.write_str_gives f.old result text f.new }
{
    for name in names {
        f.write_str("::")?;
        name.display(edition).fmt(f)?;
    }
    Ok(())
}

// Names alone.
fn write_plain<W: fmt::Write>(
    names: &[Name],
    edition: &Edition,
    f: &mut fmt::Formatter<W>,
) -> fmt::Result
    ensures { let texts = map (shown_name edition.now.reserved.items) names.now in
        WritesOnOk W.write_str_gives f.old result (by_colons texts) f.new }
{
    let Some((first, more)) = names.split_first() else {
        return Ok(());
    };
    first.display(edition).fmt(f)?;
    write_names(more, edition, f)
}

// A path in an edition.
#[tactic(auto, using(crate::proofs::PathLemmas::path_splits))]
fn write_path<W: fmt::Write>(
    path: &ModPath,
    edition: &Edition,
    f: &mut fmt::Formatter<W>,
) -> fmt::Result
    ensures { let text = shown_path edition.now.reserved.items path.now in
        WritesOnOk W.write_str_gives f.old result text f.new }
{
    let names = path.segments();
    match path.kind() {
        PathKind::Plain => write_plain(names, edition, f),
        kind => {
            write_kind(kind, f)?;
            write_names(names, edition, f)
        }
    }
}

impl Written for ModPath {
    ghost shown = { shown_path };

    fn write<W: fmt::Write>(&self, edition: &Edition, f: &mut fmt::Formatter<W>) -> fmt::Result {
        write_path(self, edition, f)
    }
}
