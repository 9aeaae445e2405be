// What is made of the collection: the matrix, written to a file, and the sheet, printed.
use filing::{Done, STDERR_FILENO, STDOUT_FILENO};
use release::Wanted;
use std::rt::{Env, Files};

// Writes the matrix to the file that argument i names, and answers whether that was done. `file` is for its bytes.
pub(crate) fn save_matrix<R: Env + Files>(rt: &R, i: usize, lent: &[u8], file: &mut [u8]) -> bool {
    let answer = phylip::write_matrix(lent, file);
    filing::save_answer(rt, b"treesheet", i, b"matrix", answer, file)
}

// Prints the sheet. `file` is for its bytes. None, where it could not be printed, as was told.
pub(crate) fn print_sheet(
    wanted: Wanted,
    lent: &[u8],
    refused: usize,
    file: &mut [u8],
) -> Option<Done> {
    match release::write_release(lent, refused, wanted, file) {
        Ok(n) => {
            let k = filing::within(n, file);
            print_bytes(&file[..k], refused)
        }
        Err(r) => {
            filing::tell_refused(b"sheet", answers::refusal_number(r));
            None
        }
    }
}

// Prints bytes, and answers what was done behind so many refused texts.
fn print_bytes(bytes: &[u8], refused: usize) -> Option<Done> {
    if !io::write_all(STDOUT_FILENO, bytes) {
        io::write_all(STDERR_FILENO, b"treesheet: writing failed\n");
        return None;
    }
    Some(if refused == 0 { Done::All } else { Done::Rest })
}
