// Rows of the schema: a witness, and whether its tree comes back.
use row_files::{Files, NotTried, Row, witness};
use wv_schema::{Witness, tree_of, witness_of};
use wv_yaml::{Tree, read};

/// A row's witness as a tree.
fn tree(files: &Files<'_>, row: &Row) -> Result<Tree, NotTried> {
    let Some(bytes) = witness(files, row)? else {
        return Err(NotTried::Lacks("witness"));
    };
    match read(files.alloc(), bytes.as_slice()) {
        Ok(tree) => Ok(tree),
        Err(_) => Err(NotTried::Lacks("a witness that is YAML")),
    }
}

/// A row's witness, which has to be one.
pub fn read_witness(files: &Files<'_>, row: &Row) -> Result<Witness, NotTried> {
    let tree = tree(files, row)?;
    match witness_of(files.alloc(), &tree) {
        Ok(witness) => Ok(witness),
        Err(_) => Err(NotTried::Lacks("a witness of the schema")),
    }
}

/// Whether the tree of what is read is the tree of the text.
pub fn tree_again(files: &Files<'_>, row: &Row) -> Result<String, NotTried> {
    let alloc = files.alloc();
    let tree = tree(files, row)?;
    let witness = read_witness(files, row)?;
    let again = tree_of(alloc, &witness)?;
    let first = format!(in alloc; "{tree:?}")?;
    let second = format!(in alloc; "{again:?}")?;
    if first.as_str() == second.as_str() {
        Ok(String::from_str(alloc, "the same tree")?)
    } else {
        Ok(second)
    }
}
