/// Why a sink does not take a stream: the first requirement that is not met, in this order. Of other codecs than LC3 the first alone.
#[derive(Clone, Copy, Debug, PartialEq, Eq)]
pub enum NotTaken {
    /// The codecs are the same.
    Codec,
    /// The sampling frequency is there and is supported.
    Frequency,
    /// The frame duration is there and is supported.
    Duration,
    /// The octets of a codec frame are there and within the least and the greatest, which are there too.
    FrameOctets,
    /// The number of channels is supported.
    Channels,
    /// The codec frames of a unit are not too many.
    FramesPerSdu,
    /// The channels and the sink share a location, where both have one.
    Location,
    /// A context of the stream is available.
    Context,
}
