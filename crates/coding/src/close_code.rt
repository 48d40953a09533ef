// The status code of a close frame (RFC 6455, 7.4).
ghost use Rattle.std.specs.Prelude.{◌≡◌};
ghost use Rattle.coding.specs.CloseCodes.{class_of, class_code, allowed_class, allowed};

// The class of a code. Those that stand for a range of codes keep the code.
#[derive(Clone, Copy)]
pub enum CloseCode {
    Normal,
    Away,
    Protocol,
    Unsupported,
    Status,
    Abnormal,
    Invalid,
    Policy,
    Size,
    Extension,
    Error,
    Restart,
    Again,
    Tls,
    Reserved(u16),
    Iana(u16),
    Library(u16),
    Bad(u16),
}

// The arms and their order are the Rust's.
impl From<u16> for CloseCode {
    ghost from_gives = { λ code class. class ≡ class_of code };

    #[tactic(auto, unfolding(crate::specs::CloseCodes::class_of, base::specs::Table::value_at))]
    fn from(code: u16) -> CloseCode {
        match code {
            1000 => CloseCode::Normal,
            1001 => CloseCode::Away,
            1002 => CloseCode::Protocol,
            1003 => CloseCode::Unsupported,
            1005 => CloseCode::Status,
            1006 => CloseCode::Abnormal,
            1007 => CloseCode::Invalid,
            1008 => CloseCode::Policy,
            1009 => CloseCode::Size,
            1010 => CloseCode::Extension,
            1011 => CloseCode::Error,
            1012 => CloseCode::Restart,
            1013 => CloseCode::Again,
            1015 => CloseCode::Tls,
            1..=999 => CloseCode::Bad(code),
            1016..=2999 => CloseCode::Reserved(code),
            3000..=3999 => CloseCode::Iana(code),
            4000..=4999 => CloseCode::Library(code),
            _ => CloseCode::Bad(code),
        }
    }
}

impl From<CloseCode> for u16 {
    ghost from_gives = { λ class code. code ≡ class_code class };

    fn from(class: CloseCode) -> u16 {
        match class {
            CloseCode::Normal => 1000,
            CloseCode::Away => 1001,
            CloseCode::Protocol => 1002,
            CloseCode::Unsupported => 1003,
            CloseCode::Status => 1005,
            CloseCode::Abnormal => 1006,
            CloseCode::Invalid => 1007,
            CloseCode::Policy => 1008,
            CloseCode::Size => 1009,
            CloseCode::Extension => 1010,
            CloseCode::Error => 1011,
            CloseCode::Restart => 1012,
            CloseCode::Again => 1013,
            CloseCode::Tls => 1015,
            CloseCode::Reserved(code)
            | CloseCode::Iana(code)
            | CloseCode::Library(code)
            | CloseCode::Bad(code) => code,
        }
    }
}

impl CloseCode {
    // Whether a peer may send it in a close frame. Status, Abnormal and Tls tell of an end without one (RFC 6455, 7.4.1).
    pub fn is_allowed(self) -> bool
        ensures { result ≡ allowed_class self }
    {
        !matches!(
            self,
            CloseCode::Bad(_)
                | CloseCode::Reserved(_)
                | CloseCode::Status
                | CloseCode::Abnormal
                | CloseCode::Tls
        )
    }
}

// Whether a peer may send the code in a close frame.
pub fn is_allowed(code: u16) -> bool
    ensures { result ≡ allowed code }
{
    CloseCode::from(code).is_allowed()
}
