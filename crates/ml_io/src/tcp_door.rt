//! A door over TCP, on the loopback address: a part of the trusted edge.
ghost use Rattle.std.specs.Prelude.{◌≡◌, true, false, Some, None, IfOk, OnErr, is_ok, is_some};
ghost use Rattle.ml_io.specs.Causes.{HasCause};
ghost use Rattle.ml_io.specs.RealInput.{faults_after_call};
ghost use Rattle.ml_io.specs.TcpDoor.{fresh_tcp_door};

use crate::accepting::{TcpLink, accept};
use crate::door::Door;
use crate::failed::Failed;
use crate::lingering::linger;
use crate::real::RealOutput;
use crate::real_input::RealInput;
use std::marker::Model;
use std::net::{Ipv4Addr, Net, TcpListener, TcpStream};
use std::time::Clock;

/// Listens on 127.0.0.1. It tells nothing of its connections.
#[derive(Drop)]
pub struct TcpDoor<R: Net<Listener = TcpListener, Stream = TcpStream> + Clock> {
    system: R,
    listener: Option<TcpListener>,
    port: Option<u16>,
    out: bool,
    faults: u64,
}

impl<R: Net<Listener = TcpListener, Stream = TcpStream> + Clock> Model for TcpDoor<R> {
    ghost use Rattle.std.specs.Prelude.{is_some};
    ghost use Rattle.ml_io.specs.TcpDoor.{TcpDoorState};

    ghost Value = { TcpDoorState };

    ghost view = { λ a. record {
      port = a.port;
      listens = is_some a.listener;
      out = a.out;
      faults = a.faults;
    } };
}

impl<R: Net<Listener = TcpListener, Stream = TcpStream> + Clock> TcpDoor<R> {
    /// A door that does not listen yet. A reference to a runtime serves as well.
    pub fn new(system: R) -> TcpDoor<R>
        ensures { result ≡ fresh_tcp_door }
    {
        TcpDoor {
            system,
            listener: None,
            port: None,
            out: false,
            faults: 0,
        }
    }
}

impl<R: Net<Listener = TcpListener, Stream = TcpStream> + Clock> Door for TcpDoor<R> {
    type In = RealInput<TcpStream>;

    type Out = RealOutput<TcpStream>;

    ghost at_port = { λ d. d.port };

    ghost listens = { λ d. d.listens };

    ghost is_out = { λ d. d.out };

    ghost coming = { λ _. None };

    ghost served = { λ _. None };

    ghost faults = { λ d. d.faults };

    fn listen(&mut self, port: u16) -> Result<(), Failed>
        requires { self.old.port ≡ None }
        ensures port { self.new.port ≡ Some port }
        ensures listens { self.new.listens ≡ is_ok result }
        ensures same { self.new.out ≡ self.old.out }
        ensures cause { HasCause self.old.faults self.new.faults result }
        ensures counted { self.new.faults ≡ faults_after_call result self.old.faults }
    {
        self.port = Some(port);
        match TcpListener::bind(&self.system, (Ipv4Addr::LOCALHOST, port)) {
            Ok(listener) => {
                self.listener = Some(listener);
                Ok(())
            }
            Err(_) => {
                self.listener = None;
                self.faults = self.faults.saturating_add(1);
                Err(Failed)
            }
        }
    }

    fn next(&mut self) -> Result<Option<TcpLink>, Failed>
        requires listens { self.old.listens ≡ true }
        requires out { self.old.out ≡ false }
        ensures ok { IfOk result (λ link. is_some link ≡ true) }
        ensures out { self.new.out ≡ is_ok result }
        ensures same { (self.new.port ≡ self.old.port) × (self.new.listens ≡ self.old.listens) }
        ensures cause { HasCause self.old.faults self.new.faults result }
        ensures counted { self.new.faults ≡ faults_after_call result self.old.faults }
    {
        let link = match &self.listener {
            Some(listener) => accept(&self.system, listener),
            None => None,
        };
        match link {
            Some(link) => {
                self.out = true;
                Ok(Some(link))
            }
            None => {
                self.faults = self.faults.saturating_add(1);
                Err(Failed)
            }
        }
    }

    /// Closes the connection. Bytes of the client that nobody has read are read and dropped before, for two
    /// seconds at most.
    fn done(&mut self, link: TcpLink)
        requires { self.old.out ≡ true }
        ensures out { self.new.out ≡ false }
        ensures same { (self.new.port ≡ self.old.port) × (self.new.listens ≡ self.old.listens) }
        ensures faults { self.new.faults ≡ self.old.faults }
    {
        self.out = false;
        linger(&self.system, link);
    }
}
