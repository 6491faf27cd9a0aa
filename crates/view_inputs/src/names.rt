// Lines of a list of tasks.
use wv_arguments::Names;

fn of_pieces<'a>(
    program: Option<&'a str>,
    property: Option<&'a str>,
    witness: Option<&'a str>,
    more: Option<&'a str>,
) -> Option<Names<'a>> {
    let program = program?;
    let property = property?;
    let witness = witness?;
    if more.is_some() || program.is_empty() || property.is_empty() || witness.is_empty() {
        return None;
    }
    Some(Names {
        program,
        property,
        witness,
    })
}

/// The program, the property and the witness that a line names: parted by tabs where it has one, else by blanks.
pub fn names_in(line: &str) -> Option<Names<'_>> {
    if line.contains('\t') {
        let mut pieces = line.split('\t');
        let program = pieces.next();
        let property = pieces.next();
        let witness = pieces.next();
        of_pieces(program, property, witness, pieces.next())
    } else {
        let mut pieces = line.split_whitespace();
        let program = pieces.next();
        let property = pieces.next();
        let witness = pieces.next();
        of_pieces(program, property, witness, pieces.next())
    }
}
