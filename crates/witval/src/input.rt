ghost use Rattle.std.specs.Prelude.{◌≡◌, ◌≤◌, length, IfOk, IfErr};
ghost use Rattle.witval.specs.Inputs.{AreBegun, AreInputs, AreWithin, RightStop, RightStopAlone, RightStopOfFour, Told, ToldOne, certificate_limit, limit_of};
ghost use Rattle.witval.specs.declared.input.File.TheVariants as file;
ghost use Rattle.wv_arguments.specs.Requests.{named};

use std::alloc::Global;
use wv_arguments::Names;
use wv_base::{ReadFault, Shelf, read_all};

/// The input files, in the order in which they are read.
#[derive(Clone, Copy, Debug, PartialEq, Eq)]
pub enum File {
    Program,
    Property,
    Witness,
}

/// Why reading stopped.
#[derive(Clone, Copy, Debug, PartialEq, Eq)]
pub enum Stop {
    Fault(File),
    TooLong(File),
    OutOfMemory,
}

/// The bytes of the three files. Where a violation witness is made, values for a run's inputs stand in place of a
/// witness.
#[derive(Drop)]
pub struct Inputs {
    pub program: Vec<u8>,
    pub property: Vec<u8>,
    pub witness: Vec<u8>,
}

/// Why reading three files and a certificate stopped: at one of the three, or at the certificate.
#[derive(Clone, Copy, Debug, PartialEq, Eq)]
pub enum FourStop {
    Three(Stop),
    Certificate(ReadFault),
}

/// The bytes of the three files and of a certificate.
#[derive(Drop)]
pub struct FourInputs {
    pub inputs: Inputs,
    pub certificate: Vec<u8>,
}

/// The limits of the program and the witness, of the property, and of a certificate, in bytes.
const LONG: usize = 1048576;

const SHORT: usize = 4096;

const CERTIFICATE: usize = 67108864;

/// Reads the three files in their order.
pub fn read_three<S: Shelf>(alloc: Global, names: &Names<'_>, shelf: &mut S) -> Result<Inputs, Stop>
    ensures inputs { IfOk result (λ inputs. Told (named names.now) (S.state shelf.old) (AreInputs inputs)) }
    ensures within { IfOk result AreWithin }
    ensures begun { IfOk result (λ inputs. AreBegun (S.state shelf.old) (S.state shelf.new)) }
    ensures stop { IfErr result (RightStop (named names.now) (S.state shelf.old) (S.state shelf.new)) }
    ensures same_files { (S.state shelf.new).files ≡ (S.state shelf.old).files }
{
    let program = match read_all(alloc, shelf, names.program, LONG) {
        Ok(bytes) => bytes,
        Err(ReadFault::Fault) => return Err(Stop::Fault(File::Program)),
        Err(ReadFault::TooLong) => return Err(Stop::TooLong(File::Program)),
        Err(ReadFault::OutOfMemory) => return Err(Stop::OutOfMemory),
    };
    let property = match read_all(alloc, shelf, names.property, SHORT) {
        Ok(bytes) => bytes,
        Err(ReadFault::Fault) => return Err(Stop::Fault(File::Property)),
        Err(ReadFault::TooLong) => return Err(Stop::TooLong(File::Property)),
        Err(ReadFault::OutOfMemory) => return Err(Stop::OutOfMemory),
    };
    let witness = match read_all(alloc, shelf, names.witness, LONG) {
        Ok(bytes) => bytes,
        Err(ReadFault::Fault) => return Err(Stop::Fault(File::Witness)),
        Err(ReadFault::TooLong) => return Err(Stop::TooLong(File::Witness)),
        Err(ReadFault::OutOfMemory) => return Err(Stop::OutOfMemory),
    };
    Ok(Inputs {
        program,
        property,
        witness,
    })
}

/// Reads the three files in their order, and then a certificate.
pub fn read_four<S: Shelf>(
    alloc: Global,
    names: &Names<'_>,
    certificate: &str,
    shelf: &mut S,
) -> Result<FourInputs, FourStop>
    ensures inputs { IfOk result (λ four. Told (named names.now) (S.state shelf.old) (AreInputs four.inputs)) }
    ensures within { IfOk result (λ four. AreWithin four.inputs) }
    ensures certificate { IfOk result (λ four. ToldOne certificate.now (S.state shelf.old)
        (λ told. four.certificate.items ≡ told)) }
    ensures within_limit { IfOk result (λ four. length four.certificate.items ≤ certificate_limit) }
    ensures stop { IfErr result (RightStopOfFour (named names.now) certificate.now (S.state shelf.old)
        (S.state shelf.new)) }
    ensures same_files { (S.state shelf.new).files ≡ (S.state shelf.old).files }
{
    let inputs = match read_three(alloc, names, shelf) {
        Ok(inputs) => inputs,
        Err(stop) => return Err(FourStop::Three(stop)),
    };
    match read_all(alloc, shelf, certificate, CERTIFICATE) {
        Ok(certificate) => Ok(FourInputs {
            inputs,
            certificate,
        }),
        Err(ReadFault::Fault) => Err(FourStop::Certificate(ReadFault::Fault)),
        Err(ReadFault::TooLong) => Err(FourStop::Certificate(ReadFault::TooLong)),
        Err(ReadFault::OutOfMemory) => Err(FourStop::Certificate(ReadFault::OutOfMemory)),
    }
}

/// Reads a witness alone.
pub fn read_one<S: Shelf>(alloc: Global, name: &str, shelf: &mut S) -> Result<Vec<u8>, Stop>
    ensures witness { IfOk result (λ bytes. ToldOne name.now (S.state shelf.old) (λ told. bytes.items ≡ told)) }
    ensures within { IfOk result (λ bytes. length bytes.items ≤ limit_of file.Witness) }
    ensures stop { IfErr result (RightStopAlone name.now (S.state shelf.old) (S.state shelf.new)) }
    ensures same_files { (S.state shelf.new).files ≡ (S.state shelf.old).files }
{
    match read_all(alloc, shelf, name, LONG) {
        Ok(bytes) => Ok(bytes),
        Err(ReadFault::Fault) => Err(Stop::Fault(File::Witness)),
        Err(ReadFault::TooLong) => Err(Stop::TooLong(File::Witness)),
        Err(ReadFault::OutOfMemory) => Err(Stop::OutOfMemory),
    }
}
