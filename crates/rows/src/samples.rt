//! The worked samples, as one list.
ghost use Rattle.rows.specs.Samples.{SamplesHold};

/// For every kind of attributes `K`, and every splitter that reads the samples' texts as pieces.
pub fn samples_hold<K>()
    ensures { SamplesHold K }
{}
