//! The crates that a command line names: a root file, or those of a package.
use crate::escapes::Shown;
use crate::failure::{Failure, refusal};
use crate::files::{ReadError, Room, is_a_folder};
use crate::options::edition_of;
use crate::walk::{MANIFEST, files_of_folder, is_file, with_slash};
use cargo_manifest::{FeatureChoice, Root};
use def_map::Manifest;
use hir_input::{CfgAtom, EditionYear, Name};
use itemtree_options::{Asked, CrateAsked};
use std::alloc::{AllocError, Global};
use std::io;

/// How far above a package its workspace is looked for.
const MOST_ABOVE: usize = 32;

/// The crates that a command line names.
#[derive(Drop)]
pub(crate) struct Crates {
    /// Their root files.
    pub(crate) roots: Vec<String>,
    /// The edition, if a manifest tells it.
    pub(crate) edition: Option<EditionYear>,
    /// The cfgs of the features that are enabled.
    pub(crate) features: Vec<CfgAtom>,
    /// What bears on their imports.
    pub(crate) facts: Manifest,
}

/// The folder of a package, with a slash behind it; nothing for the working directory.
#[derive(Drop)]
struct Package<'a> {
    rt: &'a HostRuntime,
    top: String,
    roots: Vec<String>,
}

/// A crate that a manifest declares has no root file.
fn no_root(alloc: Global, top: &str, name: &str) -> Result<Failure, AllocError> {
    let (top, name) = (Shown(top), Shown(name));
    let message = format!(in alloc; "{top}{MANIFEST}: the crate {name} has no root file")?;
    Ok(Failure::Usage(message))
}

impl Package<'_> {
    fn push_root(&mut self, path: String) -> Result<(), AllocError> {
        if !self.roots.contains(&path) {
            self.roots.push(path)?;
        }
        Ok(())
    }

    /// Adds the file of a root, if there is one.
    fn push_first(&mut self, paths: &[String]) -> Result<bool, AllocError> {
        let (alloc, rt) = (self.rt.alloc(), self.rt);
        for path in paths {
            let top = &self.top;
            let path = format!(in alloc; "{top}{path}")?;
            if is_file(rt, &path) {
                self.push_root(path)?;
                return Ok(true);
            }
        }
        Ok(false)
    }

    fn push_declared(&mut self, root: &Root) -> Result<(), Failure> {
        if self.push_first(&root.paths)? || !root.is_declared {
            return Ok(());
        }
        Err(no_root(self.rt.alloc(), &self.top, &root.name)?)
    }

    /// Adds the root files in the folder of binaries.
    fn push_binaries(&mut self, asked: &Asked<'_>) -> Result<(), Failure> {
        let (alloc, rt) = (self.rt.alloc(), self.rt);
        let top = &self.top;
        let folder = format!(in alloc; "{top}src/bin/")?;
        if !is_a_folder(rt, &folder) {
            return Ok(());
        }
        let found = files_of_folder(rt, &folder, asked)?;
        if let Some(fault) = found.faults.first() {
            return Err(refusal(alloc, &fault.path, fault.reason.as_str())?);
        }
        for file in found.files {
            let below = file.strip_prefix(folder.as_str()).unwrap_or(&file);
            let is_root = match below.split_once('/') {
                Some((_, name)) => name == "main.rs",
                None => true,
            };
            if is_root {
                self.push_root(file)?;
            }
        }
        Ok(())
    }
}

/// The text of a manifest.
fn manifest_text(rt: &HostRuntime, path: &str) -> Result<String, Failure> {
    let mut room = Room::new(rt.alloc());
    match room.read(rt, path) {
        Ok(text) => Ok(String::from_str(rt.alloc(), text)?),
        Err(error) => Err(refusal(rt.alloc(), path, error)?),
    }
}

/// The text of the nearest manifest above a package that has a workspace.
fn workspace_text(rt: &HostRuntime, top: &str) -> Result<Option<String>, AllocError> {
    let mut above = String::from_str(rt.alloc(), top)?;
    for _level in 0..MOST_ABOVE {
        above.push_str("../")?;
        let path = format!(in rt.alloc(); "{above}{MANIFEST}")?;
        let mut room = Room::new(rt.alloc());
        match room.read(rt, &path) {
            Ok(text) if text.contains("[workspace") => {
                return Ok(Some(String::from_str(rt.alloc(), text)?));
            }
            Err(ReadError::Unread(error)) if error.kind() == io::ErrorKind::OutOfMemory => {
                return Err(AllocError);
            }
            _ => {}
        }
    }
    Ok(None)
}

/// What the manifest at a path tells, also by its workspace.
fn manifest_at(
    rt: &HostRuntime,
    top: &str,
    path: &str,
) -> Result<cargo_manifest::Manifest, Failure> {
    let alloc = rt.alloc();
    let text = manifest_text(rt, path)?;
    let manifest = match cargo_manifest::Manifest::from_text(alloc, &text, None) {
        Ok(manifest) => manifest,
        Err(error) => return Err(refusal(alloc, path, error)?),
    };
    if manifest.edition.is_some() {
        return Ok(manifest);
    }
    let Some(workspace) = workspace_text(rt, top)? else {
        return Ok(manifest);
    };
    match cargo_manifest::Manifest::from_text(alloc, &text, Some(&workspace)) {
        Ok(manifest) => Ok(manifest),
        Err(error) => Err(refusal(alloc, path, error)?),
    }
}

/// The cfg of a feature.
fn push_feature(alloc: Global, name: &str, atoms: &mut Vec<CfgAtom>) -> Result<(), AllocError> {
    let value = String::from_str(alloc, name)?;
    if let Some(key) = Name::new(String::from_str(alloc, "feature")?) {
        atoms.push(CfgAtom::KeyValue { key, value })?;
    }
    Ok(())
}

fn push_features(
    alloc: Global,
    names: &[&str],
    atoms: &mut Vec<CfgAtom>,
) -> Result<(), AllocError> {
    for name in names {
        push_feature(alloc, name, atoms)?;
    }
    Ok(())
}

/// The names of the features that are asked for.
fn named_features<'a>(alloc: Global, asked: &Asked<'a>) -> Result<Vec<&'a str>, AllocError> {
    let mut names = Vec::new(alloc);
    for words in &asked.features {
        let split = words.split(|c| c == ',' || c == ' ');
        for name in split {
            if !name.is_empty() {
                names.push(name)?;
            }
        }
    }
    Ok(names)
}

/// The cfgs of the features of a package that are enabled.
fn feature_atoms(
    alloc: Global,
    path: &str,
    manifest: &cargo_manifest::Manifest,
    asked: &Asked<'_>,
    krate: CrateAsked<'_>,
) -> Result<Vec<CfgAtom>, Failure> {
    let named = named_features(alloc, asked)?;
    let choice = FeatureChoice {
        all: krate.has_all_features,
        no_default: !krate.has_default_features,
        named: named.as_slice(),
    };
    let mut atoms = Vec::new(alloc);
    match manifest.enabled_features(alloc, &choice) {
        Ok(names) => push_features(alloc, &names, &mut atoms)?,
        Err(error) => return Err(refusal(alloc, path, error)?),
    }
    Ok(atoms)
}

fn push_name(alloc: Global, text: &str, names: &mut Vec<Name>) -> Result<(), AllocError> {
    if let Some(name) = Name::new(String::from_str(alloc, text)?) {
        names.push(name)?;
    }
    Ok(())
}

/// The names of other crates, if they are known: a dependency that is not renamed may call its library otherwise.
fn other_crates(
    alloc: Global,
    manifest: &cargo_manifest::Manifest,
) -> Result<Option<Vec<Name>>, AllocError> {
    let mut names = Vec::new(alloc);
    for dependency in &manifest.dependencies {
        if dependency.package_name.is_none() {
            return Ok(None);
        }
        push_name(alloc, &dependency.name, &mut names)?;
    }
    if let Some(library) = manifest.roots.first() {
        push_name(alloc, &library.name, &mut names)?;
    }
    Ok(Some(names))
}

fn feature_names(
    alloc: Global,
    manifest: &cargo_manifest::Manifest,
) -> Result<Vec<String>, AllocError> {
    let mut names = Vec::new(alloc);
    for feature in &manifest.features {
        names.push(feature.name.clone()?)?;
    }
    Ok(names)
}

/// What a manifest says that bears on imports.
fn import_facts(
    alloc: Global,
    asked: &Asked<'_>,
    manifest: &cargo_manifest::Manifest,
) -> Result<Manifest, AllocError> {
    let (features, crates) = (
        feature_names(alloc, manifest)?,
        other_crates(alloc, manifest)?,
    );
    let is_2015 = edition_of(asked, manifest.edition) == EditionYear::E2015;
    Manifest::new(alloc, is_2015, features, crates)
}

/// The root files of a package, whose folder has a slash behind it.
fn package_roots(
    rt: &HostRuntime,
    asked: &Asked<'_>,
    top: String,
    manifest: &cargo_manifest::Manifest,
) -> Result<Vec<String>, Failure> {
    let mut package = Package {
        rt,
        top,
        roots: Vec::new(rt.alloc()),
    };
    for root in &manifest.roots {
        package.push_declared(root)?;
    }
    if manifest.lists_bin_folder {
        package.push_binaries(asked)?;
    }
    let Package { roots, .. } = package;
    Ok(roots)
}

/// The crates of a package, by its folder.
fn package_crates(
    rt: &HostRuntime,
    asked: &Asked<'_>,
    krate: CrateAsked<'_>,
) -> Result<Crates, Failure> {
    let alloc = rt.alloc();
    let top = with_slash(alloc, krate.root)?;
    let top = String::from_str(alloc, top.strip_prefix("./").unwrap_or(&top))?;
    let path = format!(in alloc; "{top}{MANIFEST}")?;
    let manifest = manifest_at(rt, &top, &path)?;
    let features = feature_atoms(alloc, &path, &manifest, asked, krate)?;
    let facts = import_facts(alloc, asked, &manifest)?;
    let roots = package_roots(rt, asked, top, &manifest)?;
    if roots.is_empty() {
        return Err(refusal(alloc, &path, "no crate of this package has a root file")?);
    }
    Ok(Crates {
        roots,
        edition: manifest.edition,
        features,
        facts,
    })
}

/// The crates that a command line names. Of a root file the features are those that are named.
pub(crate) fn crates_of(
    rt: &HostRuntime,
    asked: &Asked<'_>,
    krate: CrateAsked<'_>,
) -> Result<Crates, Failure> {
    if is_a_folder(rt, krate.root) {
        return package_crates(rt, asked, krate);
    }
    let alloc = rt.alloc();
    let is_2015 = edition_of(asked, None) == EditionYear::E2015;
    let mut crates = Crates {
        roots: Vec::new(alloc),
        edition: None,
        features: Vec::new(alloc),
        facts: Manifest::new(alloc, is_2015, Vec::new(alloc), None)?,
    };
    push_features(alloc, &named_features(alloc, asked)?, &mut crates.features)?;
    crates
        .roots
        .push(String::from_str(alloc, krate.root)?)
        .map_err(AllocError::from)?;
    Ok(crates)
}
