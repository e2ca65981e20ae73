//! The law of cuttings, each part the contract of a call that does nothing: however a text is cut into segments, each
//! given the chain of the one before, they give what the whole text gives.
ghost use Rattle.text_segments.specs.Cuttings.{CutCodesAreWhole, CutTextsAreWhole};

/// The texts that segments give, joined, are the whole text enciphered or deciphered from the initial value, its
/// padding put on or taken off. The last segment is refused by rule 31 exactly where the whole text is.
pub fn cut_texts_are_whole()
    ensures { CutTextsAreWhole }
{}

/// The code after the last segment is that of the whole text.
pub fn cut_codes_are_whole()
    ensures { CutCodesAreWhole }
{}
