//! The files of a crate, as its `mod` items lead to them from the root file on.
use crate::failure::Failure;
use crate::files::Room;
use crate::walk::{Fault, Found};
use def_map::{DefMapError, Manifest, ResolvedImport, resolve_imports};
use item_tree::ItemTree;
use itemtree_commands::{CrateFile, Options};
use module_tree::{KnownFiles, KnownPath, ModuleChoice, ModuleTree, ModuleTreeError, module_tree};
use std::alloc::{AllocError, Global};
use std::collections::{BTreeMap, BTreeSet};
use std::fs;
use std::fs::Metadata;
use std::os::unix::fs::MetadataExt;

/// The attribute by which a macro is known outside of its module.
const EXPORT_WORD: &str = "macro_export";

/// The lint that forbids to name macros by paths that other macros make, and its group.
const EXPANDED_WORDS: [&str; 2] = [
    "macro_expanded_macro_exports_accessed_by_absolute_paths",
    "future_incompatible",
];

/// A file, by the numbers of its device and of itself.
type FileId = (u64, u64);

fn id_of(found: &Metadata) -> FileId {
    (found.dev(), found.ino())
}

/// Whether a text behind the word `mod` goes on as a module does.
fn is_module(rest: &str) -> bool {
    let name = rest.trim_start();
    let behind = name.trim_start_matches(|c: char| c == '_' || c == '#' || c.is_alphanumeric());
    name.len() < rest.len()
        && behind.len() < name.len()
        && behind.trim_start().starts_with(|c| c == ';' || c == '{')
}

/// How often a text exports a macro: as often as can be if it has a module in a body, whose file is not read.
fn export_words(file: &CrateFile) -> u32 {
    let modules = file
        .text()
        .split("mod")
        .skip(1)
        .filter(|rest| is_module(rest));
    if modules.count() > file.tree().item_tree_stats().mods {
        return u32::MAX;
    }
    let count = file.text().split(EXPORT_WORD).skip(1).count();
    u32::try_from(count).unwrap_or(u32::MAX)
}

/// Whether a text has a use whose list stands behind `::`, which its tree does not tell.
fn has_global_list(text: &str) -> bool {
    let mut uses = text.split("use").skip(1);
    uses.any(|rest| {
        let behind = rest.trim_start().strip_prefix("::").unwrap_or("");
        behind.trim_start().starts_with('{')
    })
}

/// Whether a text may allow to name macros by paths that other macros make.
fn allows_expanded(text: &str) -> bool {
    EXPANDED_WORDS.iter().any(|word| text.contains(word))
}

/// What is known of the files of a crate.
#[derive(Drop)]
pub(crate) struct CrateSources<'a> {
    rt: &'a HostRuntime,
    options: &'a Options,
    /// Which `mod` items are followed.
    choice: ModuleChoice,
    paths: BTreeMap<String, KnownPath>,
    numbers: BTreeMap<FileId, u32>,
    files: Vec<CrateFile>,
    room: Room,
    /// What could not be read.
    faults: Found,
    /// The numbers of the files among it.
    unread: BTreeSet<u32>,
}

impl<'a> CrateSources<'a> {
    pub(crate) fn new(
        rt: &'a HostRuntime,
        options: &'a Options,
        choice: ModuleChoice,
    ) -> CrateSources<'a> {
        let alloc = rt.alloc();
        CrateSources {
            rt,
            options,
            choice,
            paths: BTreeMap::new(alloc),
            numbers: BTreeMap::new(alloc),
            files: Vec::new(alloc),
            room: Room::new(alloc),
            faults: Found::new(alloc),
            unread: BTreeSet::new(alloc),
        }
    }

    /// The text of a file; that of one that cannot be read is empty.
    fn text_of(&mut self, path: &str) -> Result<String, AllocError> {
        let alloc = self.rt.alloc();
        match self.room.read(self.rt, path) {
            Ok(text) => String::from_str(alloc, text),
            Err(error) => {
                self.faults.push_fault(alloc, path, error)?;
                Ok(String::new(alloc))
            }
        }
    }

    /// What is read of a file. One that has no tree is as an empty one.
    fn read(&mut self, path: &str) -> Result<CrateFile, Failure> {
        let alloc = self.rt.alloc();
        let text = self.text_of(path)?;
        let error = match CrateFile::read(
            alloc,
            String::from_str(alloc, path)?,
            text,
            self.options,
        ) {
            Ok(file) => return Ok(file),
            Err(error) => error,
        };
        self.faults.push_fault(alloc, path, error)?;
        let empty = String::new(alloc);
        match CrateFile::read(alloc, String::from_str(alloc, path)?, empty, self.options) {
            Ok(file) => Ok(file),
            Err(_) => Err(Failure::from(AllocError)),
        }
    }

    /// Reads a file, and gives its number.
    fn push_file(&mut self, path: &str) -> Result<u32, Failure> {
        let number = u32::try_from(self.files.len()).unwrap_or(u32::MAX);
        let before = self.faults.faults.len();
        let file = self.read(path)?;
        self.files.push(file).map_err(AllocError::from)?;
        if self.faults.faults.len() > before {
            self.unread.insert(number).map_err(AllocError::from)?;
        }
        Ok(number)
    }

    /// The number of a file, which is read once.
    fn number_of(&mut self, path: &str, found: &Metadata) -> Result<u32, Failure> {
        let id = id_of(found);
        if let Some(number) = self.numbers.get(&id) {
            return Ok(*number);
        }
        let number = self.push_file(path)?;
        self.numbers.insert(id, number).map_err(AllocError::from)?;
        Ok(number)
    }

    /// What stands at a path: a folder, a pipe and a device are no files.
    fn look_up(&mut self, path: &str) -> Result<KnownPath, Failure> {
        match fs::metadata(self.rt, path) {
            Ok(found) if found.is_file() => Ok(KnownPath::File(self.number_of(path, &found)?)),
            _ => Ok(KnownPath::Missing),
        }
    }

    fn look_up_all(&mut self, wanted: &[String]) -> Result<(), Failure> {
        for path in wanted {
            if !self.paths.contains_key(path.as_str()) {
                let known = self.look_up(path)?;
                self.paths
                    .insert(path.clone()?, known)
                    .map_err(AllocError::from)?;
            }
        }
        Ok(())
    }

    /// The trees of the files.
    fn trees(&self) -> Result<Vec<&ItemTree>, AllocError> {
        let mut trees: Vec<&ItemTree> = Vec::new(self.rt.alloc());
        for file in &self.files {
            trees.push(file.tree())?;
        }
        Ok(trees)
    }

    /// The modules that are known.
    fn known_modules(&self, root: u32, path: &str) -> Result<ModuleTree, ModuleTreeError> {
        let alloc = self.rt.alloc();
        let trees = self.trees()?;
        let known = KnownFiles {
            paths: &self.paths,
            trees: trees.as_slice(),
        };
        module_tree(alloc, root, path, &known, self.choice)
    }

    /// The number of the root file of a crate, if it can be looked at.
    fn root(&mut self, path: &str) -> Result<Option<u32>, Failure> {
        match fs::metadata(self.rt, path) {
            Ok(found) => Ok(Some(self.number_of(path, &found)?)),
            Err(error) => {
                self.faults.push_fault(self.rt.alloc(), path, error)?;
                Ok(None)
            }
        }
    }

    /// The modules that are known, if there are not too many.
    fn few_modules(&mut self, root: u32, path: &str) -> Result<Option<ModuleTree>, Failure> {
        match self.known_modules(root, path) {
            Ok(tree) => Ok(Some(tree)),
            Err(ModuleTreeError::OutOfMemory) => Err(Failure::from(AllocError)),
            Err(error) => {
                self.faults.push_fault(self.rt.alloc(), path, error)?;
                Ok(None)
            }
        }
    }

    /// The modules of the crate with this root file, if they can be told: what is wanted is looked up.
    pub(crate) fn modules(&mut self, path: &str) -> Result<Option<ModuleTree>, Failure> {
        let Some(root) = self.root(path)? else {
            return Ok(None);
        };
        let mut known = self.few_modules(root, path)?;
        for _turn in 0..u64::MAX {
            let Some(tree) = known else {
                return Ok(None);
            };
            if tree.wanted.is_empty() {
                return Ok(Some(tree));
            }
            self.look_up_all(&tree.wanted)?;
            known = self.few_modules(root, path)?;
        }
        Ok(known)
    }

    /// How often the word stands in each file that makes a macro known outside of its module.
    fn export_words(&self) -> Result<Vec<u32>, AllocError> {
        let mut words = Vec::new(self.rt.alloc());
        for file in &self.files {
            words.push(export_words(file))?;
        }
        Ok(words)
    }

    /// Whether the trees tell where the path of each import begins.
    pub(crate) fn tells_paths(&self) -> bool {
        !self.files.iter().any(|file| has_global_list(file.text()))
    }

    /// What is told of the imports of a crate with these modules.
    pub(crate) fn resolved_imports(
        &self,
        tree: &ModuleTree,
        manifest: &Manifest,
    ) -> Result<Vec<ResolvedImport>, DefMapError> {
        let (trees, export_words) = (self.trees()?, self.export_words()?);
        let sources = def_map::CrateSources {
            modules: &tree.modules,
            trees: &trees,
            export_words: &export_words,
            allows_expanded: self.files.iter().any(|file| allows_expanded(file.text())),
            manifest,
        };
        resolve_imports(self.rt.alloc(), sources)
    }

    /// The files by their numbers.
    pub(crate) fn files(&self) -> &[CrateFile] {
        &self.files
    }

    /// What could not be read.
    pub(crate) fn faults(&self) -> &[Fault] {
        &self.faults.faults
    }

    /// Whether a path leads to a file that was read.
    pub(crate) fn has_read(&self, path: &str) -> bool {
        fs::metadata(self.rt, path).is_ok_and(|found| self.numbers.contains_key(&id_of(&found)))
    }

    /// Adds the files that the modules of a crate stand in and that were read, but those that are there.
    fn push_files<'f>(
        &'f self,
        tree: &ModuleTree,
        seen: &mut BTreeSet<u32>,
        files: &mut Vec<&'f CrateFile>,
    ) -> Result<(), AllocError> {
        for module in &tree.modules {
            let is_new = seen.insert(module.file)? && !self.unread.contains(&module.file);
            if let (true, Some(file)) = (is_new, self.files.get(module.file as usize)) {
                files.push(file)?;
            }
        }
        Ok(())
    }

    /// The files that modules stand in and that were read, in the order of the modules, each once.
    pub(crate) fn files_of(&self, trees: &[ModuleTree]) -> Result<Vec<&CrateFile>, AllocError> {
        let alloc = self.rt.alloc();
        let (mut files, mut seen) = (Vec::new(alloc), BTreeSet::new(alloc));
        for tree in trees {
            self.push_files(tree, &mut seen, &mut files)?;
        }
        Ok(files)
    }
}
