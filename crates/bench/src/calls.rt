// Calls that lend nothing, and the deposits that the cases make.
use custody::call::Call;

// A deposit of the zero message.
pub fn wrapping<'a>(place: usize, width: u32, noise: &'a [i16]) -> Call<'a> {
    Call::Deposit {
        place,
        width,
        noise,
        message: &[0],
    }
}

// A deposit of a message without noise, at width 10.
pub fn plain<'a>(place: usize, message: &'a [u8]) -> Call<'a> {
    Call::Deposit {
        place,
        width: 10,
        noise: &[0; 16],
        message,
    }
}

pub fn join(first: usize, second: usize) -> Call<'static> {
    Call::Join { first, second }
}

pub fn trim(place: usize) -> Call<'static> {
    Call::Trim { place }
}

pub fn clear(place: usize) -> Call<'static> {
    Call::Clear { place }
}

pub fn open(place: usize) -> Call<'static> {
    Call::Open { place }
}

pub fn hand_out(place: usize) -> Call<'static> {
    Call::HandOut { place }
}

pub fn tell(place: usize) -> Call<'static> {
    Call::Tell { place }
}

pub fn alike(first: usize, second: usize) -> Call<'static> {
    Call::Alike { first, second }
}
