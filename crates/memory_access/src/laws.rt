ghost use Rattle.memory_access.specs.Laws.{BytesHoldNumbers, NumbersHoldBytes, BytesHoldValues, LoadsGiveStores, StoresKeepOthers, StoresKeepFrames, ZerosStay};

/// A number below 256^n is the number of its n bytes.
pub fn bytes_hold_numbers()
    ensures { BytesHoldNumbers }
{}

/// Bytes that are numbers are the bytes of the number that they make.
pub fn numbers_hold_bytes()
    ensures { NumbersHoldBytes }
{}

/// A value that fits an access is the value of the bytes that it is stored as.
pub fn bytes_hold_values()
    ensures { BytesHoldValues }
{}

/// What was stored is loaded, by the same access at the same address.
pub fn loads_give_stores()
    ensures { LoadsGiveStores }
{}

/// A store leaves every byte elsewhere as it was.
pub fn stores_keep_others()
    ensures { StoresKeepOthers }
{}

/// A store keeps each block's name, size, alignment and the length of its contents.
pub fn stores_keep_frames()
    ensures { StoresKeepFrames }
{}

/// A getelementptr whose indices are all 0 gives its base, with `inbounds` or without.
pub fn zeros_stay()
    ensures { ZerosStay }
{}
