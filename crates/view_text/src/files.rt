use crate::message::File;

/// The names of the judged files, as they were given, and the bytes that were read of them: program, property, witness,
/// and a certificate.
#[derive(Clone, Copy, Debug)]
pub struct Files<'a> {
    pub names: [&'a str; 4],
    pub texts: [&'a [u8]; 4],
}

impl<'a> Files<'a> {
    /// The name that was given.
    pub fn name(&self, file: File) -> &'a str {
        match file {
            File::Program => self.names[0],
            File::Property => self.names[1],
            File::Witness => self.names[2],
            File::Certificate => self.names[3],
        }
    }

    /// The bytes that were read.
    pub fn text(&self, file: File) -> &'a [u8] {
        match file {
            File::Program => self.texts[0],
            File::Property => self.texts[1],
            File::Witness => self.texts[2],
            File::Certificate => self.texts[3],
        }
    }
}
