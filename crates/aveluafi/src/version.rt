// The version of the interface, exported, so that a header of another version than the archive is noticed.
ghost use Rattle.std.specs.Prelude.{◌≡◌, pos};
ghost use Rattle.aveluafi.specs.Version.{version};

// What AVELUAFI_VERSION of include/aveluafi.h is.
#[unsafe(no_mangle)]
pub extern "C" fn aveluafi_version() -> i32
    ensures { result ≡ pos version }
{
    3
}
