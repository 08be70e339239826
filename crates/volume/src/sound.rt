// A volume that has opened, for whoever asks more of it than its counts.
ghost use Rattle.records.specs.Format.{volume_of};
ghost use Rattle.volume.specs.Sound.{Sound};

use records::readers::Records;

// The records of a volume that obeys every rule.
#[derive(Clone, Copy)]
pub struct Opened<'a> {
    pub records: Records<'a>,
    pub ghost sound: { Sound (volume_of records.bytes.now) },
}
