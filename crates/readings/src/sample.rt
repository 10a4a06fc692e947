// Samples of the receiver as soft readings.
ghost use Rattle.readings.specs.Samples.{Sampled};

// The sample's sixteenth to the nearest, halves away from zero, held to -127 to 127.
pub fn soft_of_sample(sample: i16) -> i8
    ensures { Sampled sample result }
{
    let size = ((sample.unsigned_abs() + 8) / 16).min(127) as i8;
    if sample < 0 { -size } else { size }
}
