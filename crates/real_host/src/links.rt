//! Links: streams that give up in time, and send what they are given at once.
use std::io::{BufReader, ErrorKind, Read, Write};
use std::net::{TcpListener, TcpStream, ToSocketAddrs};
use std::time::{Duration, Instant};
use std::{io, thread};

/// How many seconds one call on a link may wait for the other end.
const PATIENCE: u64 = 30;

/// How many seconds a session may take: a call on its link that begins later fails.
const SESSION: u64 = 600;

/// How many milliseconds pass before a call that failed is made again.
const PAUSE: u64 = 100;

/// How many pauses a link is asked for where nobody listens: for three seconds.
const CONNECT_PAUSES: u32 = 30;

/// How many pauses there are while links can't be accepted: for a minute.
const ACCEPT_PAUSES: u32 = 600;

fn patience() -> Duration {
    Duration::from_secs(PATIENCE)
}

fn pause(rt: &HostRuntime) {
    thread::sleep(rt, Duration::from_millis(PAUSE));
}

/// A stream that is read through a buffer, and the moment when its session began.
#[derive(Drop)]
pub struct Link {
    stream: BufReader<TcpStream>,
    began: Instant,
}

impl Link {
    // A packet is written in two pieces. Without the first option the second piece waits until the other end has confirmed the first.
    fn new(rt: &HostRuntime, stream: TcpStream) -> io::Result<Link> {
        stream.set_nodelay(true)?;
        stream.set_read_timeout(Some(patience()))?;
        stream.set_write_timeout(Some(patience()))?;
        Ok(Link {
            stream: BufReader::new(rt.alloc(), stream)?,
            began: Instant::now(rt)?,
        })
    }

    fn is_late(&self, rt: &HostRuntime) -> bool {
        match self.began.elapsed(rt) {
            Ok(time) => time.as_secs() >= SESSION,
            Err(_) => true,
        }
    }
}

/// Lets a link go whose session has taken all of its time.
pub fn end_late(rt: &HostRuntime, link: &mut Option<Link>) {
    let is_late = match link {
        Some(link) => link.is_late(rt),
        None => false,
    };
    if is_late {
        *link = None;
    }
}

impl Read for Link {
    fn read(&mut self, buf: &mut [u8]) -> io::Result<usize> {
        self.stream.read(buf)
    }
}

impl Write for Link {
    fn write(&mut self, buf: &[u8]) -> io::Result<usize> {
        let mut stream = self.stream.get_ref();
        stream.write(buf)
    }

    fn flush(&mut self) -> io::Result<()> {
        Ok(())
    }
}

/// Connects to the first address of the name that answers. Where nobody listens it is asked again for three seconds, since a server may just begin.
pub fn connect(rt: &HostRuntime, address: &str) -> io::Result<Link> {
    for _ in 0..CONNECT_PAUSES {
        match connect_once(rt, address) {
            Err(fault) if fault.kind() == ErrorKind::ConnectionRefused => pause(rt),
            ended => return ended,
        }
    }
    connect_once(rt, address)
}

// Tries each address in turn. It was refused where nobody listens at any of them, and else fails as the last of the others did.
fn connect_once(rt: &HostRuntime, address: &str) -> io::Result<Link> {
    let mut last = io::Error::from(ErrorKind::ConnectionRefused);
    for address in address.to_socket_addrs(rt)? {
        match TcpStream::connect_timeout(rt, &address, patience()) {
            Ok(stream) if leads_back(&stream) => {}
            Ok(stream) => return Link::new(rt, stream),
            Err(fault) if fault.kind() == ErrorKind::ConnectionRefused => {}
            Err(fault) => last = fault,
        }
    }
    Err(last)
}

// Whether a stream is its own other end. The system may give it the very port that it asks for, where nobody listens there.
fn leads_back(stream: &TcpStream) -> bool {
    match (stream.local_addr(), stream.peer_addr()) {
        (Ok(own), Ok(other)) => own == other,
        _ => false,
    }
}

/// Listens at the first address of the name that can be had. Port 0 is refused: it means any port, and nobody would learn which.
pub fn listen(rt: &HostRuntime, address: &str) -> io::Result<TcpListener> {
    let mut last = io::Error::from(ErrorKind::InvalidInput);
    for address in address.to_socket_addrs(rt)? {
        if address.port() == 0 {
            return Err(io::Error::from(ErrorKind::InvalidInput));
        }
        match TcpListener::bind(rt, address) {
            Ok(listener) => return Ok(listener),
            Err(fault) => last = fault,
        }
    }
    Err(last)
}

/// Waits for the next link that somebody makes and that can be had. One that fails before is passed over. Where the system gives none, as when all
/// descriptors are taken, it is asked again after a pause, for a minute.
pub fn accept(rt: &HostRuntime, listener: &TcpListener) -> io::Result<Link> {
    let mut pauses = ACCEPT_PAUSES;
    for _ in 0..u64::MAX {
        match listener.accept() {
            Ok((stream, _)) => {
                if let Ok(link) = Link::new(rt, stream) {
                    return Ok(link);
                }
            }
            Err(fault) if fault.kind() == ErrorKind::ConnectionAborted => {}
            Err(fault) => {
                let Some(left) = pauses.checked_sub(1) else {
                    return Err(fault);
                };
                pauses = left;
                pause(rt);
            }
        }
    }
    Err(io::Error::from(ErrorKind::ConnectionAborted))
}
