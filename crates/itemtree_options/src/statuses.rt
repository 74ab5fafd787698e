//! What the statuses of the program say.

/// What stands behind the help of the program.
pub(crate) const STATUSES: &str = "Statuses:
  0  done: a name is found, nothing is wrong, nothing differs
  1  find: nothing is found; check: something is wrong; changed: something differs;
     imports --duplicates, --unresolved: there are some
  2  an error: the command line is wrong, a file cannot be read or has no tree,
     memory runs out or writing fails. What can be done is done all the same
  6  serve, lsp: reading or writing fails

'itemtree COMMAND --help' has an example and the statuses of a command.";
