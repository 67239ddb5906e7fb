ghost use Rattle.std.specs.Prelude.{◌↔◌, IsTrue};
ghost use Rattle.big_info.specs.Widths.{FitsWidths};

/// What the BIGInfo of an encrypted group tells besides: GIV and GSKD.
#[derive(Clone, Copy)]
pub struct Cipher {
    pub giv: [u8; 8],
    pub gskd: [u8; 16],
}

/// The fields of a BIGInfo in their order on the air (Core 5.2, volume 6 part B, section 4.4.6.11). `iso_interval` is in units of 1.25 ms,
/// `big_offset` of 30 µs where `big_offset_units` is 0, else of 300 µs. `sub_interval`, `bis_spacing` and `sdu_interval` are in µs,
/// `max_pdu` and `max_sdu` in octets. `phy` is 0 for LE 1M, 1 for LE 2M and 2 for LE Coded; `framing` is 0 for unframed and 1 for framed.
#[derive(Clone, Copy)]
pub struct BigInfo {
    pub big_offset: u16,
    pub big_offset_units: u8,
    pub iso_interval: u16,
    pub num_bis: u8,
    pub nse: u8,
    pub bn: u8,
    pub sub_interval: u32,
    pub pto: u8,
    pub bis_spacing: u32,
    pub irc: u8,
    pub max_pdu: u8,
    pub seed_access_address: u32,
    pub sdu_interval: u32,
    pub max_sdu: u16,
    pub base_crc_init: u16,
    pub chm: u64,
    pub phy: u8,
    pub bis_payload_count: u64,
    pub framing: u8,
    pub cipher: Option<Cipher>,
}

impl BigInfo {
    /// Whether each field fits its width on the air.
    pub fn fits(&self) -> bool
        ensures { IsTrue result ↔ FitsWidths self.now }
    {
        let info = *self;
        if info.big_offset >= 1 << 14 || info.big_offset_units >= 1 << 1 {
            return false;
        }
        if info.iso_interval >= 1 << 12 || info.num_bis >= 1 << 5 || info.nse >= 1 << 5 {
            return false;
        }
        if info.bn >= 1 << 3 || info.sub_interval >= 1 << 20 || info.pto >= 1 << 4 {
            return false;
        }
        if info.bis_spacing >= 1 << 20 || info.irc >= 1 << 4 {
            return false;
        }
        if info.sdu_interval >= 1 << 20 || info.max_sdu >= 1 << 12 || info.chm >= 1 << 37 {
            return false;
        }
        info.phy < 1 << 3 && info.bis_payload_count < 1 << 39 && info.framing < 1 << 1
    }
}
