ghost use Rattle.std.specs.Prelude.{◌≡◌};
ghost use Rattle.dd_text.specs.Reads.{cert_limits, request_limits};
ghost use Rattle.dd_text.specs.declared.read.TheConstants.{CERT, REQUEST};
ghost use Rattle.dd_text.specs.Laws.{AxiomTextsAreUnique, ConceptTextsAreUnique, PrintedAxiomsRead, PrintedConceptsRead, ReadAxiomsPrint, ReadConceptsPrint};

/// A text is that of at most one concept, or of at most one axiom.
pub fn texts_are_unique()
    ensures concepts { ConceptTextsAreUnique }
    ensures axioms { AxiomTextsAreUnique }
{}

/// What is printed is read back: the same concept or axiom, with no new symbols, unless it, or a side of it, is too large or
/// too deep, or there is no memory.
pub fn printed_texts_read()
    ensures concepts { PrintedConceptsRead }
    ensures axioms { PrintedAxiomsRead }
{}

/// What was read is printed back as the text that it was read from.
pub fn read_texts_print()
    ensures concepts { ReadConceptsPrint }
    ensures axioms { ReadAxiomsPrint }
{}

/// The two limits are those of the definitions: 1,000 nodes and depth 64, and twice the nodes and one level more.
pub fn limits_are_defined()
    ensures request { REQUEST ≡ request_limits }
    ensures cert { CERT ≡ cert_limits }
{}
