//! What is printed of certificates is their text, each law the contract of a function.

ghost use Rattle.hq_certtext.specs.Printed.{ReadBack, PrintedIsRead};

/// What a certificate prints is its text, and so is read as the same certificate. What the certificate must keep is
/// what a text can say: numbers of 32 bits, at most 1,024 of them in the order, 1 to 5 branches, lines that cite
/// below themselves, and pair lines that cite lines that are there.
pub fn read_back()
    ensures { ReadBack }
{}

/// What `print` writes of a certificate is a text of it, wherever the certificate holds for some job within the limits
/// of the job text, and has at most 2^32 lines: whoever reads the texts of certificates makes of it the same one.
pub fn printed_is_read()
    ensures { PrintedIsRead }
{}
