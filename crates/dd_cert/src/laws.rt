ghost use Rattle.dd_cert.specs.Laws.{CertsAreUnique, PrintedCertsRead};

/// What is printed of a yes or a no is read back: the same derivation or world, with no new symbols, where its concepts are
/// within the limits of certificates.
pub fn printed_certs_read()
    ensures { PrintedCertsRead }
{}

/// A value is one certificate, or stops to be one at one place.
pub fn certs_are_unique()
    ensures { CertsAreUnique }
{}
