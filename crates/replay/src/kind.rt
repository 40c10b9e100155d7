// The kinds of cases, by their numbers in the protocol.
use replay_io::Malformed;

#[derive(Clone, Copy, Debug, PartialEq, Eq)]
pub enum Kind {
    Packet,
    Collect,
    Pad,
    Unpad,
    MultistreamPad,
    MultistreamUnpad,
    WriteSize,
    Size,
    FrameCount,
    SamplesPerFrame,
    PacketWithPlace,
    SizeWithPlace,
    PadWithPlace,
    UnpadWithPlace,
    MultistreamPadWithPlace,
    MultistreamUnpadWithPlace,
    OrdinaryAdds,
    FlaggedAdds,
    PacketByNumber,
    RangeAndAdd,
    Orders,
    Join,
    Take,
    Verdict,
    Share,
    Choice,
    ReadHead,
    WriteHead,
}

impl TryFrom<u8> for Kind {
    type Error = Malformed;

    fn try_from(number: u8) -> Result<Self, Malformed> {
        match number {
            1 => Ok(Kind::Packet),
            2 => Ok(Kind::Collect),
            3 => Ok(Kind::Pad),
            4 => Ok(Kind::Unpad),
            5 => Ok(Kind::MultistreamPad),
            6 => Ok(Kind::MultistreamUnpad),
            7 => Ok(Kind::WriteSize),
            8 => Ok(Kind::Size),
            9 => Ok(Kind::FrameCount),
            10 => Ok(Kind::SamplesPerFrame),
            11 => Ok(Kind::PacketWithPlace),
            12 => Ok(Kind::SizeWithPlace),
            13 => Ok(Kind::PadWithPlace),
            14 => Ok(Kind::UnpadWithPlace),
            15 => Ok(Kind::MultistreamPadWithPlace),
            16 => Ok(Kind::MultistreamUnpadWithPlace),
            17 => Ok(Kind::OrdinaryAdds),
            18 => Ok(Kind::FlaggedAdds),
            19 => Ok(Kind::PacketByNumber),
            20 => Ok(Kind::RangeAndAdd),
            21 => Ok(Kind::Orders),
            22 => Ok(Kind::Join),
            23 => Ok(Kind::Take),
            24 => Ok(Kind::Verdict),
            25 => Ok(Kind::Share),
            26 => Ok(Kind::Choice),
            27 => Ok(Kind::ReadHead),
            28 => Ok(Kind::WriteHead),
            _ => Err(Malformed),
        }
    }
}
