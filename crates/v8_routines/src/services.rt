//! Laws of the services, for every count of windows and every current window. Each is the contract of a function that
//! does nothing.
ghost use Rattle.v8_routines.specs.Services.{ExitLaw, GetLaw, PutLaw};

/// `ta 0` stops the machine with %o0 as its exit status, in three turns.
pub fn exit_stops_the_machine()
    ensures { ExitLaw }
{}

/// `ta 1` brings the next byte of input into %o0, or all ones at its end, in five turns. Beside it they change the
/// locals of the window below, tt, PS, R of the code page and of the system pages, and the place.
pub fn get_gives_the_next_byte()
    ensures { GetLaw }
{}

/// `ta 2` puts the low byte of %o0 out, in five turns. Beside it they change the locals of the window below, tt, PS, R
/// of the code page and R and M of the system pages, and the place.
pub fn put_puts_the_low_byte_out()
    ensures { PutLaw }
{}
