// The published examples hold of the definitions that the contracts cite.
ghost use Rattle.digest.specs.Examples.{PublishedExamples};

/// The digests and the tag that the standard and the tag's published examples give are those of the definitions. A law:
/// it does nothing.
pub fn published_examples_hold()
    ensures answers { PublishedExamples }
{}
