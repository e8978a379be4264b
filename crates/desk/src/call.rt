// A call on the desk: a routine request (a down limit, an up limit, a start or a stop of one transfer), a raise or a clear.
#[derive(Clone, Copy)]
pub enum Call {
    Down(i32),
    Up(i32),
    Start(u32),
    Stop(u32),
    Raise(u32),
    Clear,
}
